// What is seen of a declaration, by those before it.
ghost use Rattle.std.specs.Prelude.{IfOk};
ghost use Rattle.nt_named_types.specs.Judged.{IsJudged};
ghost use Rattle.nt_type_trees.specs.Types.{IsSoundSeen};
ghost use Rattle.nt_types.specs.Opened.{view_of};

use crate::table::Table;
use crate::view::TypeView;
use nt_const::Constants;
use nt_diag::Fault;
use nt_type_trees::{TypeSeen, kind_of_declared};
use nt_types::{Scopes, View, What};
use std::alloc::{AllocError, Global};

pub(crate) fn judged(
    alloc: Global,
    scopes: &Scopes,
    known: &Constants,
    table: &Table,
    what: &What,
) -> Result<TypeSeen, AllocError>
    ensures seen { IfOk result (λ x. IsJudged (view_of scopes.now) known.now table.now what.now x) }
    ensures sound { IfOk result (λ x. IsSoundSeen x) }
{
    match what {
        What::Type { of, dims } => {
            let names = TypeView {
                names: View { scopes, known },
                table,
            };
            match kind_of_declared(alloc, of.get(), dims.as_slice(), &names) {
                Ok(kind) => Ok(TypeSeen::Known(kind)),
                Err(Fault::Refused(refusal)) => Ok(TypeSeen::Faulty(refusal)),
                Err(Fault::OutOfMemory(refused)) => Err(refused),
            }
        }
        What::Constant(_path) => Ok(TypeSeen::Other),
        What::Function(_at) => Ok(TypeSeen::Other),
        What::Nettype(_at) => Ok(TypeSeen::Other),
        What::Other => Ok(TypeSeen::Other),
    }
}
