// What names stand for.
use nt_value::Shape;

/// The shapes of nets, variables and locals, and the one of the elements of a resolver's argument, where there is such.
#[derive(Drop)]
pub struct Names<'a> {
    pub nets: &'a [Shape],
    pub vars: &'a [Shape],
    pub locals: &'a [Shape],
    pub many: &'a [Shape],
}
