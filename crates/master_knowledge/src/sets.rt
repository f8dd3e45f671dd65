ghost use Rattle.std.specs.Prelude.{◌≡◌};
ghost use Rattle.protocol_rules.specs.Group.{Group, is_live};

use quorum_sets::Rules;

/// Whether these are the rules that stay alive.
pub fn are_live(rules: Rules) -> bool
    ensures { (g : Group) → rules ≡ g.rules → result ≡ is_live g }
{
    match rules {
        Rules::First => false,
        Rules::Live => true,
    }
}
