ghost use Rattle.sublist.specs.Tree.{IsBranch, IsBranchOf};

use base::Pieces;
use subjects::{is_star, is_tail};

/// Where the path of a pattern leads from a node.
#[derive(Clone, Copy, Debug)]
pub enum Branch<'a> {
    /// It ends at the node.
    End,
    /// It ends with `>`.
    Tail,
    /// It goes on below `*`.
    Star,
    /// It goes on below this token.
    Literal(&'a [u8]),
}

/// Takes the next token off a path, the tokens that are left of a pattern, and tells the branch that it leads to.
pub fn next_branch<'a>(path: &mut Pieces<'a>) -> Branch<'a>
    ensures { IsBranch path.old result path.new }
{
    match path.next_piece() {
        None => Branch::End,
        Some(token) => branch_of(token),
    }
}

fn branch_of(token: &[u8]) -> Branch<'_>
    ensures { IsBranchOf token.now result }
{
    if is_tail(token) {
        Branch::Tail
    } else if is_star(token) {
        Branch::Star
    } else {
        Branch::Literal(token)
    }
}
