// The value of an expression, if it has one, worked out from its records.

#![tactic(auto)]

ghost use Rattle.std.specs.Prelude.{◌≡◌, ◌≤◌, ◌<◌};
ghost use Rattle.rules.specs.Recipe.{read, value};
ghost use Rattle.rules.specs.Table.{kind_of, expr_of};
ghost use Rattle.expr.specs.Spelt.{Spelt};
ghost use Rattle.values.specs.Operators.{option_of};

use table::record::{Kind, beyond, enclosed, is, word_of};
use values::{BinaryOperator, UnaryOperator, signed};

// What a task's expressions are worked out with: the shared variables, and its own parameter.
#[derive(Clone, Copy)]
pub struct Env<'a> {
    pub variables: &'a [i32; 64],
    pub parameter: i32,
}

impl Env<'_> {
    // A variable's value; name 64 is the task's own parameter. (kept: a number, as the table has it.)
    pub fn variable(self, name: u8) -> i32
        requires { name ≤ 64 }
        ensures { result ≡ read (record { variables = self.entry.variables.now; parameter = self.entry.parameter }) name }
    {
        if name == 64 {
            return self.parameter;
        }
        self.variables[usize::from(name)]
    }
}

// A part goes as a slice, and that it spells an expression is a clause of three functions. (kept: what a record encloses is handed on as a slice; a struct
// of slice and fact would be made anew at each operand.)

// An operator with its operands. Without the first one's value it has none, whatever the second's; of the operators only a quotient by 0
// has none.
#[cycle(operand_operator)]
fn operator(part: &[u8], env: Env) -> Option<i32>
    requires { Spelt part.now × (11 ≤ kind_of part.now) }
    ensures { option_of result ≡ value (record { variables = env.entry.variables.now; parameter = env.entry.parameter }) (expr_of part.now) }
{
    let inner = enclosed(part);
    let a = operand(inner, env)?;
    if is(part, Kind::Unary) {
        return Some(UnaryOperator::from(part[1]).apply(a));
    }
    let b = operand(beyond(inner), env)?;
    BinaryOperator::from(part[1]).apply(a, b)
}

// An operand: a constant or a variable is worked out in place, without a step of the recursion. What an operator gives is taken apart and made anew:
// handed on as it is, whether it is there would be asked again beside the leaves that always are.
#[cycle(operand_operator)]
#[inline(always)]
fn operand(part: &[u8], env: Env) -> Option<i32>
    requires { Spelt part.now }
    ensures { option_of result ≡ value (record { variables = env.entry.variables.now; parameter = env.entry.parameter }) (expr_of part.now) }
{
    if is(part, Kind::Constant) {
        return Some(signed(word_of(part)));
    }
    if is(part, Kind::Variable) {
        return Some(env.variable(part[1]));
    }
    Some(operator(part, env)?)
}

// The expression that a part starts with.
#[inline(always)]
pub fn eval(part: &[u8], env: Env) -> Option<i32>
    requires { Spelt part.now }
    ensures { option_of result ≡ value (record { variables = env.entry.variables.now; parameter = env.entry.parameter }) (expr_of part.now) }
{
    operand(part, env)
}
