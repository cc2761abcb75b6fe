// What a failure does to a fatal checker.
ghost use Rattle.std.specs.Prelude.{cond, ◌≡◌};
ghost use Rattle.rules.specs.Config.{going_on_config};
ghost use Rattle.rules.specs.Rules.{failing, stopped_word};

use cycle::Outcome;
use rules::{Config, STOPPED};

// Whether a row has mark 1 or 2.
pub fn fails(row: u32) -> bool
    ensures { result ≡ failing row }
{
    row % 4 != 0
}

// The same checker, made to go on after a failure.
pub fn going_on(c: Config) -> Config
    ensures { result ≡ going_on_config c }
{
    Config { severity: 0, ..c }
}

// What a fatal checker leaves in a cycle where one that goes on leaves `next`.
pub fn stop_at_failure(next: Outcome) -> Outcome
    ensures { (result.row ≡ next.row) × (result.word ≡ cond (failing next.row) stopped_word next.word) }
{
    if fails(next.row) {
        return Outcome {
            word: STOPPED,
            ..next
        };
    }
    next
}
