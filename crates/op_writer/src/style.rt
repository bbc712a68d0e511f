/// How names are written. Plain: as they are. Quoted: in quotes where they need them. Both use operators and write `'$VAR'(N)` as a
/// letter. Canonical: quoted, without either.
#[derive(Clone, Copy, Debug, PartialEq, Eq)]
pub enum Style {
    Plain,
    Quoted,
    Canonical,
}
