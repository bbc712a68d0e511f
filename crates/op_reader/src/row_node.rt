ghost use Rattle.std.specs.Prelude.{◌≡◌, ◌<◌, ℕ, List, [], All, true, length, take, map, option_map, IfOk, IfSome, OnOk};
ghost use Rattle.op_term.specs.Ops.{is_prefix as the_is_prefix, is_infix as the_is_infix, is_postfix as the_is_postfix};
ghost use Rattle.op_term.specs.Places.{term_at};
ghost use Rattle.op_reader.specs.Row.{tree, is_row, alternates, Member as SpecMember};
ghost use Rattle.op_reader.specs.inner.RowState.{expects_operand, AreBelow, Stands, no_members};
ghost use Rattle.op_reader.specs.inner.Members.{member_at, MemberBelow, TakesMember, IsClass};

use crate::member::Member;
use crate::row::Row;
use op_base::Memory;
use op_term::{Builder, OpKind};
use std::alloc::Global;

/// The class of an operator's kind.
#[derive(Clone, Copy)]
enum Class {
    Prefix,
    Infix,
    Postfix,
}

fn class_of(kind: OpKind) -> Class
    ensures { IsClass kind result }
{
    match kind {
        OpKind::Fy | OpKind::Fx => Class::Prefix,
        OpKind::Xf | OpKind::Yf => Class::Postfix,
        OpKind::Xfx | OpKind::Xfy | OpKind::Yfx => Class::Infix,
    }
}

// Takes the next member, where it may stand, and says whether an operand comes next.
fn take_member(
    row: &mut Row,
    nodes: &mut Builder,
    member: Member,
    expected: bool,
) -> Result<Option<bool>, Memory>
    requires member { MemberBelow (length nodes.old) member }
    requires expected { expects_operand row.old ≡ expected }
    requires there { AreBelow (length nodes.old) row.old }
    ensures takes { IfOk result (TakesMember nodes.old member expected row.old nodes.new row.new) }
    ensures kept { take (length nodes.old) nodes.new ≡ nodes.old }
{
    match member {
        Member::Operand(node) => {
            if !expected {
                return Ok(None);
            }
            row.operand(node);
            Ok(Some(false))
        }
        Member::Operator(operator) => match class_of(operator.meaning.kind) {
            Class::Prefix => {
                if !expected {
                    return Ok(None);
                }
                row.prefix(operator.name, operator.meaning)?;
                Ok(Some(true))
            }
            Class::Infix => {
                if expected {
                    return Ok(None);
                }
                row.infix(nodes, operator.name, operator.meaning)?;
                Ok(Some(true))
            }
            Class::Postfix => {
                if expected {
                    return Ok(None);
                }
                row.postfix(nodes, operator.name, operator.meaning)?;
                Ok(Some(false))
            }
        },
    }
}

/// The node of a row's tree within a bound, or none where it has no such tree.
pub(crate) fn row_node(
    alloc: Global,
    nodes: &mut Builder,
    members: &[Member],
    bound: u32,
) -> Result<Option<u64>, Memory>
    requires { All (MemberBelow (length nodes.old)) members.now }
    ensures tree { IfOk result (λ found. tree bound (map (member_at nodes.old) members.now) ≡ option_map (term_at nodes.new) found) }
    ensures there { IfOk result (λ found. IfSome found (λ at. at < length nodes.new)) }
    ensures kept { take (length nodes.old) nodes.new ≡ nodes.old }
{
    let mut row = Row::new(alloc);
    let mut expected = true;
    for member in members {
        match take_member(&mut row, nodes, *member, expected)? {
            Some(next) => expected = next,
            None => return Ok(None),
        }
    }
    if expected {
        return Ok(None);
    }
    row.finish(nodes, bound)
}
