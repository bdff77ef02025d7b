// Why a call is refused, and where.
ghost use Rattle.std.specs.Prelude.{◌≡◌, ◌≤◌};
ghost use Rattle.table.specs.Refusals.{rule_number};

use crate::record::NoKind;

// The rules that a table or a block can break, and that a chain is asked for where there is none.
#[derive(Clone, Copy, PartialEq, Eq)]
pub enum Rule {
    TableLength,
    Kind,
    Span,
    Name,
    Value,
    Depth,
    Procedure,
    BlockLength,
    StateRecord,
    LiveTasks,
    NoChain,
}

// The rule broken, and the record at fault; 0 where none is, as the published list has it.
#[derive(Clone, Copy, PartialEq, Eq)]
pub struct Refusal {
    pub rule: Rule,
    pub place: u32,
}

impl From<Rule> for u32 {
    ghost from_gives = { λ rule result. result ≡ rule_number rule };

    // The number that the published list has for a rule.
    fn from(rule: Rule) -> Self {
        match rule {
            Rule::TableLength => 11,
            Rule::Kind => 12,
            Rule::Span => 13,
            Rule::Name => 14,
            Rule::Value => 15,
            Rule::Depth => 16,
            Rule::Procedure => 17,
            Rule::BlockLength => 21,
            Rule::StateRecord => 22,
            Rule::LiveTasks => 23,
            Rule::NoChain => 25,
        }
    }
}

impl From<NoKind> for Rule {
    ghost from_gives = { λ none result. rule_number result ≡ 12 };

    fn from(_: NoKind) -> Self {
        Rule::Kind
    }
}

impl Rule {
    // This rule, broken by the record at an index.
    pub fn at(self, place: usize) -> Refusal
        requires { place ≤ 4096 }
        ensures { result ≡ record { rule = self; place = place } }
    {
        Refusal {
            rule: self,
            place: place as u32,
        }
    }
}
