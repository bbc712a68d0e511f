ghost use Rattle.std.specs.Prelude.{◌≡◌, ◌<◌, ◌≤◌, ◌+◌, ◌^◌, ℕ, List, length, IfOk, OnOk};
ghost use Rattle.op_reader.specs.Words.{number_of, with_variable, is_anonymous as the_is_anonymous};
ghost use Rattle.op_reader.specs.inner.Shown.{HasMet};

use crate::names::Names;
use op_base::Memory;

fn is_anonymous(name: &str) -> bool
    ensures { result ≡ the_is_anonymous name.now }
{
    name == "_"
}

fn next(count: &mut u64) -> u64
    requires { count.old + 1 < 2 ^ 64 }
    ensures value { result ≡ count.old }
    ensures counted { count.new ≡ count.old + 1 }
{
    let number = *count;
    *count += 1;
    number
}

/// The number of a variable; a new one has the next. `count` is how many there are.
pub(crate) fn variable(names: &mut Names, count: &mut u64, name: &str) -> Result<u64, Memory>
    requires { count.old + 1 < 2 ^ 64 }
    ensures number { IfOk result (λ n. (met : List (List ℕ)) → HasMet names.old count.old met → n ≡ number_of met name.now) }
    ensures met { OnOk result ((met : List (List ℕ)) → HasMet names.old count.old met
        → HasMet names.new count.new (with_variable met name.now)) }
    ensures grown { count.new ≤ count.old + 1 }
{
    if is_anonymous(name) {
        return Ok(next(count));
    }
    match names.find(name) {
        Some(number) => Ok(number),
        None => {
            names.push(name, *count)?;
            Ok(next(count))
        }
    }
}
