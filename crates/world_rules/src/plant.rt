ghost use Rattle.world_rules.specs.Plant.{VouchedFollow, WritesFollow, BoardFollows};

/// Orders that more than f masters vouch for, one by one, begin what a correct master's executions make by the
/// plant's rules.
pub fn vouched_follow()
    ensures { VouchedFollow }
{}

/// What a proxy wrote, each write under its number, begins what a correct master's executions make of orders for it by
/// the plant's rules, numbered from 1 on.
pub fn writes_follow()
    ensures { WritesFollow }
{}

/// What a screen shows begins what a correct master's executions make of orders for it by the plant's rules.
pub fn board_follows()
    ensures { BoardFollows }
{}
