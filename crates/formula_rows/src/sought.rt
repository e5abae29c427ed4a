// What is looked for in a formula, and whether a term is it.
ghost use Rattle.std.specs.Prelude.{◌≡◌};
ghost use Rattle.definition.specs.12-Terms.{class_of, is_instance, has_sort, is_term};
ghost use Rattle.definition.specs.13-Formulas.{any_parameter, data_variable, is_sought};
ghost use Rattle.formula_rows.specs.Meanings.{sort_meant, sought_meant};

use crate::terms::{Sort, Term};

#[derive(Clone, Copy)]
pub enum Sought {
    Term(u16),
    Parameter,
    FreeVariable,
    Bound(Sort),
}

// Is the number an object or a parameter of the sort?
pub fn is_instance(sort: Sort, number: u16) -> bool
    ensures { result ≡ is_instance (sort_meant sort) (class_of number) }
{
    let term = Term::from(number);
    term.is_object(sort) || term.is_parameter(sort)
}

// May the number stand in a place of the sort?
pub fn has_sort(sort: Sort, number: u16) -> bool
    ensures { result ≡ has_sort (sort_meant sort) (class_of number) }
{
    is_instance(sort, number) || Term::from(number).is_variable(sort)
}

pub fn is_term(number: u16) -> bool
    ensures { result ≡ is_term (class_of number) }
{
    has_sort(Sort::Agents, number) || has_sort(Sort::Data, number)
}

fn is_any_parameter(number: u16) -> bool
    ensures { result ≡ is_sought any_parameter 0 number }
{
    let term = Term::from(number);
    term.is_parameter(Sort::Agents) || term.is_parameter(Sort::Data)
}

pub fn is_data_variable(number: u16) -> bool
    ensures { result ≡ is_sought data_variable 0 number }
{
    Term::from(number).is_variable(Sort::Data)
}

// Is the term, which stands under `depth` for-alls, what is looked for?
pub fn is_sought(w: Sought, depth: usize, number: u16) -> bool
    ensures { result ≡ is_sought (sought_meant w) depth number }
{
    match w {
        Sought::Term(u) => number == u,
        Sought::Parameter => is_any_parameter(number),
        Sought::FreeVariable => Term::from(number).is_free(depth),
        Sought::Bound(s) => Term::from(number).is_bound(s, depth),
    }
}
