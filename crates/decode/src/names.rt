// Names of pictures and radars.

// The name of a picture, by its picture code. Notice 49, 5(1)
pub fn picture(code: u8) -> Option<&'static str> {
    match code {
        0xC0 => Some("東北海道"),
        0xC1 => Some("西北海道"),
        0xC2 => Some("北北海道"),
        0xC4 => Some("北部東北"),
        0xC5 => Some("南部東北"),
        0xC8 => Some("東部北陸"),
        0xC9 => Some("西部北陸"),
        0xCC => Some("関東地方"),
        0xD2 => Some("東部東海"),
        0xD3 => Some("西部東海"),
        0xD4 => Some("北部近畿"),
        0xD5 => Some("南部近畿"),
        0xD8 => Some("中国地方"),
        0xDC => Some("四国地方"),
        0xE0 => Some("北部福岡"),
        0xE1 => Some("南部福岡"),
        0xE4 => Some("北鹿児島"),
        0xE5 => Some("南鹿児島"),
        0xF0 => Some("東部沖縄"),
        0xF1 => Some("西部沖縄"),
        _ => None,
    }
}

// The name of a radar, by its radar code. Notice 49, 5(2)
pub fn radar(code: u8) -> Option<&'static str> {
    match code {
        0xA0 => Some("札幌"),
        0xA1 => Some("釧路"),
        0xA2 => Some("函館"),
        0xA3 => Some("仙台"),
        0xA4 => Some("秋田"),
        0xA5 => Some("東京"),
        0xA7 => Some("新潟"),
        0xA8 => Some("福井"),
        0xA9 => Some("名古屋"),
        0xAA => Some("大阪"),
        0xAB => Some("松江"),
        0xAC => Some("広島"),
        0xAD => Some("室戸岬"),
        0xAE => Some("福岡"),
        0xAF => Some("種子島"),
        0xB0 => Some("名瀬"),
        0xB1 => Some("沖縄"),
        0xB3 => Some("石垣島"),
        0xB4 => Some("長野"),
        0xB5 => Some("静岡"),
        0xB6 => Some("富士山"),
        _ => None,
    }
}
