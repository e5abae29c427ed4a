// Terms: what a number stands for.
ghost use Rattle.std.specs.Prelude.{◌≡◌};
ghost use Rattle.definition.specs.12-Terms.{class_of, is_object, is_parameter, is_variable, is_free, is_bound};
ghost use Rattle.formula_rows.specs.Meanings.{sort_meant, term_meant};

#[derive(Clone, Copy, Debug, PartialEq, Eq)]
pub enum Sort {
    Agents,
    Data,
}

#[derive(Clone, Copy, Debug, PartialEq, Eq)]
pub enum Term {
    Object(Sort),
    Parameter(Sort),
    Variable(Sort, u16),
    Absent,
    Other,
}

impl Term {
    pub const AGENTS_END: u16 = 16384;

    pub const DATA_END: u16 = 32768;

    pub const AGENT_PARAMETERS_END: u16 = 32800;

    pub const DATA_PARAMETERS_END: u16 = 32832;

    pub const AGENT_VARIABLES: u16 = 40960;

    pub const DATA_VARIABLES: u16 = 40968;

    pub const VARIABLES_END: u16 = 40976;

    pub const ABSENT: u16 = 65535;

    // An agent, or a data object.
    pub fn is_object(self, sort: Sort) -> bool
        ensures { result ≡ is_object (sort_meant sort) (term_meant self) }
    {
        match self {
            Term::Object(s) => sort == s,
            _ => false,
        }
    }

    pub fn is_parameter(self, sort: Sort) -> bool
        ensures { result ≡ is_parameter (sort_meant sort) (term_meant self) }
    {
        match self {
            Term::Parameter(s) => sort == s,
            _ => false,
        }
    }

    pub fn is_variable(self, sort: Sort) -> bool
        ensures { result ≡ is_variable (sort_meant sort) (term_meant self) }
    {
        match self {
            Term::Variable(s, _) => sort == s,
            _ => false,
        }
    }

    // A variable whose own binder is not among the `depth` nearest.
    pub fn is_free(self, depth: usize) -> bool
        ensures { result ≡ is_free depth (term_meant self) }
    {
        match self {
            Term::Variable(_, n) => depth <= n as usize,
            _ => false,
        }
    }

    // The variable of the sort with `depth` binders between it and its own.
    pub fn is_bound(self, sort: Sort, depth: usize) -> bool
        ensures { result ≡ is_bound (sort_meant sort) depth (term_meant self) }
    {
        match self {
            Term::Variable(s, n) => sort == s && n as usize == depth,
            _ => false,
        }
    }
}

// What any number is as a term.
impl From<u16> for Term {
    ghost from_gives = { λ number term. term_meant term ≡ class_of number };

    #[tactic(auto, using(crate::proofs::Classes::of_agent, crate::proofs::Classes::of_data, crate::proofs::Classes::of_agent_parameter, crate::proofs::Classes::of_data_parameter, crate::proofs::Classes::of_gap, crate::proofs::Classes::of_agent_variable, crate::proofs::Classes::of_data_variable, crate::proofs::Classes::of_absent, crate::proofs::Classes::of_rest), unfolding(crate::specs::Meanings::term_meant, crate::specs::Meanings::sort_meant))]
    fn from(number: u16) -> Term {
        match number {
            ..Term::AGENTS_END => Term::Object(Sort::Agents),
            ..Term::DATA_END => Term::Object(Sort::Data),
            ..Term::AGENT_PARAMETERS_END => Term::Parameter(Sort::Agents),
            ..Term::DATA_PARAMETERS_END => Term::Parameter(Sort::Data),
            ..Term::AGENT_VARIABLES => Term::Other,
            ..Term::DATA_VARIABLES => Term::Variable(Sort::Agents, number - Term::AGENT_VARIABLES),
            ..Term::VARIABLES_END => Term::Variable(Sort::Data, number - Term::DATA_VARIABLES),
            Term::ABSENT => Term::Absent,
            _ => Term::Other,
        }
    }
}
