// Where a recheck ended, and the change of each mark.
ghost use Rattle.std.specs.Prelude.{◌∷◌, ◌≡◌, suc, length};
ghost use Rattle.rules.specs.Rules.{marks};

use rules::MARKS;

// The end, and behind it the changes in their order.
pub fn store_changes(answer: &mut [i32], end: i32, changes: [i32; MARKS])
    requires { (length answer.old ≡ suc marks) × (length changes ≡ marks) }
    ensures { answer.new ≡ end ∷ changes }
{
    answer[0] = end;
    answer[1..].copy_from_slice(&changes);
}
