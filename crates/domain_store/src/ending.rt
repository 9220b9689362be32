// The end of a tree in the stack of open splits.
ghost use Rattle.std.specs.Prelude.{◌≡◌, ◌+◌, ◌<◌, cond, List, [], ◌∷◌, ◌++◌, length, vec_len, vec_capacity};
ghost use Rattle.refutation_terms.specs.declared.lines.Line.{Line};
ghost use Rattle.refutation_terms.specs.Word.{Domains as DomainTest};
ghost use Rattle.refutation_terms.specs.Tree.{IsTree};
ghost use Rattle.domain_store.specs.Store.{HasSameShape};
ghost use Rattle.domain_store.specs.Splits.{InSplits, HasRead, IsBehindTree, second_sides_to_come};

use crate::Domains;
use crate::open_split::OpenSplit;

/// Ends a tree that has just been read: each open split whose second side ends with it is closed, and the innermost one
/// that is in its first side goes over to its second. True where no split is left: then a whole tree has been read.
pub fn end_tree(domains: &mut Domains, splits: &mut Vec<OpenSplit>) -> bool
    requires { IsBehindTree domains.old splits.old.items }
    ensures same { HasSameShape domains.old domains.new }
    ensures ended { (D : DomainTest) (lines : List Line)
        → InSplits IsTree (length domains.old.sets) domains.old D 0 splits.old.items lines
        → HasRead result (length domains.old.sets) domains.new D splits.new.items lines }
    ensures counted { second_sides_to_come splits.old.items
        ≡ cond result 0 (second_sides_to_come splits.new.items + 1) }
{
    while let Some(split) = splits.pop() {
        domains.undo_to(split.mark);
        if !split.in_second {
            domains.remove(split.p, split.x);
            put_back(
                splits,
                OpenSplit {
                    p: split.p,
                    x: split.x,
                    mark: split.mark,
                    in_second: true,
                },
            );
            return false;
        }
    }
    true
}

// Puts a split on a stack that has room for it.
fn put_back(splits: &mut Vec<OpenSplit>, split: OpenSplit)
    requires { vec_len splits.old < vec_capacity splits.old }
    ensures { splits.new.items ≡ splits.old.items ++ split ∷ [] }
{
    let _ = splits.push(split);
}
