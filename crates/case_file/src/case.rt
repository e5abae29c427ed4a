// An admitted case, as the checks behind the admission have it.
ghost use Rattle.std.proofs.Props.{props};
ghost use Rattle.case_file.specs.LentCase.{CaseLent};
ghost use Rattle.case_file.specs.ViewSets.{RowView-set};

// The bytes of the file and of its formulas, and what the agent sees of each log row.
#[derive(Clone, Copy)]
pub struct Case<'a> {
    pub file: &'a [u8],
    pub book: &'a [u8],
    pub views: &'a [u16; 1024],
    ghost lent: { CaseLent file.now book.now views.now } by { Prim.hlevel (props, RowView-set) },
}
