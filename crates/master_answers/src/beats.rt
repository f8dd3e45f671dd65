ghost use Rattle.std.specs.Prelude.{◌≡◌};
ghost use Rattle.protocol_rules.specs.Turns as rule;

use protocol_rules::SLOW_BEAT;

/// Whether it is time to say it again, where there were so many ticks.
pub(crate) fn is_slow_beat(now: u64) -> bool
    ensures { result ≡ rule.is_slow_beat now }
{
    now % SLOW_BEAT == 0
}
