//! The parameters of a query string, decoded by `form_urlencoded`: which are absent, single or
//! several. What form each must have is in `forms.rt`. `specs/Parameters`.
ghost use Rattle.std.specs.Prelude.{◌≡◌, ℕ, List, IfOk, map};
ghost use Rattle.http_edge.specs.Steps.Parameters.{found_values, pair_of, with_pair};
ghost use Rattle.http_edge.specs.Parameters.{parameter, parameters};

use form_urlencoded::parse;
use std::alloc::{AllocError, Global};
use std::borrow::CowStr;
use std::marker::Model;

/// A name and its value, decoded (URL Standard, "application/x-www-form-urlencoded").
#[derive(Drop)]
struct Parameter<'a> {
    name: CowStr<'a>,
    value: CowStr<'a>,
}

/// The value of the parameters of one name.
#[derive(Clone, Copy)]
pub(crate) enum ParameterValue<'p> {
    Absent,
    Single(&'p str),
    Several,
}

/// What was found, with one more parameter.
fn with_parameter<'p>(
    found: ParameterValue<'p>,
    pair: &'p Parameter<'_>,
    name: &str,
) -> ParameterValue<'p>
    ensures { found_values result ≡ with_pair (found_values found.entry) (pair_of pair.now) name.now }
{
    if pair.name.as_str() != name {
        return found;
    }
    match found {
        ParameterValue::Absent => ParameterValue::Single(pair.value.as_str()),
        _ => ParameterValue::Several,
    }
}

/// The value of the parameters of that name in a list.
fn value_in<'p>(list: &'p [Parameter<'_>], name: &str) -> ParameterValue<'p>
    ensures { found_values result ≡ parameter name.now (map pair_of list.now) }
{
    let mut found = ParameterValue::Absent;
    for pair in list {
        found = with_parameter(found, pair, name);
    }
    found
}

/// The parameters of a query string, in order.
#[derive(Drop)]
pub(crate) struct Parameters<'a> {
    list: Vec<Parameter<'a>>,
}

impl<'a> Model for Parameters<'a> {
    ghost use Rattle.std.specs.Prelude.{ℕ, List, map};
    ghost use Rattle.http_edge.specs.Steps.Parameters.{pair_of};

    ghost Value = { List (List ℕ × List ℕ) };

    ghost view = { λ p. map pair_of p.list.items };
}

impl<'a> Parameters<'a> {
    /// Reads a query string.
    #[tactic(auto, unfolding(crate::specs::Parameters::parameters))]
    pub(crate) fn read(alloc: Global, query: &'a [u8]) -> Result<Parameters<'a>, AllocError>
        ensures { IfOk result (λ p. p ≡ parameters query.now) }
    {
        let mut list = Vec::new(alloc);
        for pair in parse(alloc, query) {
            match pair {
                Ok((name, value)) => list.push(Parameter { name, value })?,
                Err(e) => return Err(e),
            }
        }
        Ok(Parameters { list })
    }

    /// The value of the parameters of that name.
    pub(crate) fn value(&self, name: &str) -> ParameterValue<'_>
        ensures { found_values result ≡ parameter name.now self.now }
    {
        value_in(&self.list, name)
    }
}
