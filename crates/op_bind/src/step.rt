ghost use Rattle.std.specs.Prelude.{◌≡◌};
ghost use Rattle.op_bind.specs.inner.Pairs.{step_of};

use op_term::Node;

/// What two nodes ask for.
#[derive(Clone, Copy)]
pub(crate) enum Step {
    Same,
    Clash,
    Bind(u64, u64),
    Parts,
}

/// What the nodes ask for that stand at these places.
pub(crate) fn step_between(left: Node, right: Node, x: u64, y: u64) -> Step
    ensures { result ≡ step_of left right x y }
{
    match (left, right) {
        (Node::Var(v), Node::Var(w)) => {
            if v == w {
                Step::Same
            } else if v < w {
                Step::Bind(w, x)
            } else {
                Step::Bind(v, y)
            }
        }
        (Node::Var(v), _) => Step::Bind(v, y),
        (_, Node::Var(w)) => Step::Bind(w, x),
        _ => {
            if left == right {
                Step::Parts
            } else {
                Step::Clash
            }
        }
    }
}
