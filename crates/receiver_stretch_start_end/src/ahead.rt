// Bytes between texts, and behind them a whole start or end text.
ghost use Rattle.std.specs.Prelude.{take};
ghost use Rattle.receiver_stretches.specs.Run.{Passes};
ghost use Rattle.receiver_stretch_start_end.specs.Ahead.{edge_ahead};

use crate::between::wait_run;
use crate::whole::text_ahead;
use receiver_state::state::State;
use receiver_stretches::stretch::StretchResult;

// Past the bytes between texts that stand here, and past a start text, or the due end text, of a
// marked picture (Request 101) that stands behind them whole, up to its last byte; none where a text
// is under way. The grid stays. Notice 49, 4(1)(1-1)(c)(ア), 5(1)
pub fn edge_ahead(s: State, bytes: &[u8]) -> StretchResult
    ensures { Passes s (take (edge_ahead s bytes.now) bytes.now) result }
{
    let waited = wait_run(s, bytes);
    let text = text_ahead(waited.state, &bytes[waited.at..]);
    StretchResult {
        at: waited.at + text.at,
        ..text
    }
}
