ghost use Rattle.std.specs.Prelude.{◌≡◌, option_map};
ghost use Rattle.op_store.specs.Directives.{quotes_named as the_quotes, unknown_named as the_unknown, with_flag, or_directive};
ghost use Rattle.op_trace.specs.Database.{Database};
ghost use Rattle.op_store.specs.inner.Shapes.{with_flags};

use op_reader::DoubleQuotes;
use op_trace::Flags;

fn quotes_named(name: &str) -> Option<DoubleQuotes>
    ensures { result ≡ the_quotes name.now }
{
    if name == "codes" {
        Some(DoubleQuotes::Codes)
    } else if name == "chars" {
        Some(DoubleQuotes::Chars)
    } else if name == "atom" {
        Some(DoubleQuotes::Atom)
    } else {
        None
    }
}

fn unknown_named(name: &str) -> Option<bool>
    ensures { result ≡ the_unknown name.now }
{
    if name == "error" {
        Some(false)
    } else if name == "fail" {
        Some(true)
    } else {
        None
    }
}

/// The flags with another value of a flag (ISO/IEC 13211-1, 7.11); None where there is no such flag or no such value of it.
pub(crate) fn changed_flags(flags: Flags, name: &str, value: &str) -> Option<Flags>
    ensures { (w : Database) → w.flags ≡ flags → with_flag w name.now value.now ≡ or_directive (option_map (with_flags w) result) }
{
    if name == "double_quotes" {
        match quotes_named(value) {
            Some(quotes) => Some(Flags {
                quotes,
                unknown_fails: flags.unknown_fails,
            }),
            None => None,
        }
    } else if name == "unknown" {
        match unknown_named(value) {
            Some(unknown_fails) => Some(Flags {
                quotes: flags.quotes,
                unknown_fails,
            }),
            None => None,
        }
    } else {
        None
    }
}
