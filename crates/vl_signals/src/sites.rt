ghost use Rattle.std.specs.Prelude.{◌≡◌, ℕ, Option, length, slice_get};
ghost use Rattle.std.specs.Option.{option_copied};
ghost use Rattle.vl_names.specs.Outward.{all, scope as seen_scope, scope_in, around as outer_scope};
ghost use Rattle.vl_signals.specs.declared.sites.Site.{Site};
ghost use Rattle.vl_signals.specs.Signals as signals;
ghost use Rattle.vl_signals.specs.Sites as spec;
ghost use Rattle.vl_signals.specs.Sought.{given};

use crate::signals::NumberRow;
use vl_names::Scope;

/// Where a name is declared: the number of a scope, and the place among its names.
#[derive(Clone, Copy, Debug, PartialEq, Eq)]
pub struct Site {
    pub scope: u32,
    pub place: usize,
}

/// What one scope tells of a name: that the search ends there, or where it goes on.
enum Sought {
    Ended(Option<Site>),
    Outside(Option<u32>),
}

fn at_place(scope: u32, place: Option<usize>) -> Option<Site>
    ensures { result ≡ spec.site scope place }
{
    match place {
        None => None,
        Some(place) => Some(Site { scope, place }),
    }
}

fn around(scope: &Scope) -> Option<u32>
    ensures { result ≡ outer_scope (seen_scope scope.now) }
{
    if scope.block { scope.parent } else { None }
}

fn sought_in(at: u32, scope: &Scope, name: &[u8]) -> Sought
    ensures { (further : Option ℕ → Option Site) → given further result ≡ spec.site_in at name.now (seen_scope scope.now) (further (outer_scope (seen_scope scope.now))) }
{
    if scope.table.find(name).is_some() {
        return Sought::Ended(at_place(at, scope.table.names.place(name)));
    }
    if scope.variable.find(name).is_some() {
        return Sought::Ended(None);
    }
    Sought::Outside(around(scope))
}

fn scope_at<'s, 'f>(scopes: &'s [Scope<'f>], at: u32) -> Option<&'s Scope<'f>>
    ensures { scope_in (option_copied result) ≡ slice_get (all scopes.now) at }
{
    scopes.get(at as usize)
}

fn sought_at(scopes: &[Scope], at: Option<u32>, name: &[u8]) -> Sought
    ensures { (further : Option ℕ → Option Site) → given further result ≡ spec.site_here further name.now (all scopes.now) at }
{
    match at {
        None => Sought::Ended(None),
        Some(at) => match scope_at(scopes, at) {
            None => Sought::Ended(None),
            Some(scope) => sought_in(at, scope, name),
        },
    }
}

/// Where a name is declared that is read in a scope: in the scope itself or in one round it, up to its module. None where nothing in reach has the
/// name, or where the variable of a generate loop has it. Constant time for each scope on average.
pub fn site_of(scopes: &[Scope], from: Option<u32>, name: &[u8]) -> Option<Site>
    ensures { result ≡ spec.site_from (length scopes.now) name.now (all scopes.now) from }
{
    let mut at = from;
    for turn in 0..scopes.len() {
        match sought_at(scopes, at, name) {
            Sought::Ended(site) => return site,
            Sought::Outside(next) => at = next,
        }
    }
    None
}

/// The number of the signal that is declared at a site, if one is.
pub fn number(numbers: &[NumberRow], site: Site) -> Option<u32>
    ensures { result ≡ signals.number_in (slice_get numbers.now site.scope) site.place }
{
    match numbers.get(site.scope as usize) {
        None => None,
        Some(row) => match row.as_slice().get(site.place) {
            None => None,
            Some(number) => *number,
        },
    }
}
