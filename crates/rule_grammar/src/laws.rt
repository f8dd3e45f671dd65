ghost use Rattle.rule_grammar.specs.Grammar.{EachRuleIsSpelled};
ghost use Rattle.rule_grammar.specs.Limits.{EachSpelledRuleIsRead};

/// What is read from a text is in the grammar, and the text's tokens spell it.
pub fn each_rule_is_spelled()
    ensures { EachRuleIsSpelled }
{}

/// Each rule of the grammar within the limits is read from every text whose tokens spell it.
pub fn each_spelled_rule_is_read()
    ensures { EachSpelledRuleIsRead }
{}
