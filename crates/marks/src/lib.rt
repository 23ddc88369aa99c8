// The order mark of a record.
#![tactic(auto)]

ghost use Rattle.std.specs.Prelude.{◌≡◌};
ghost use Rattle.frame.specs.Answers.{record_mark};

use record::Record;

// The order mark of a record.
pub fn mark_of(r: Record) -> usize
    ensures { result ≡ record_mark r }
{
    let hz = hertz::in_hertz(r.lsp).unwrap_or([0; 10]);
    lsp::order_mark(hz)
}
