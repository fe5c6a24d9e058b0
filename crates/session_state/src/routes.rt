// The routes that are listed, 34 bytes each.
// All lent bytes and how many of them are listed: no plainer as a slice, a route goes behind the listed ones.
ghost use Rattle.std.specs.Prelude.{◌≡◌};
ghost use Rattle.refusals.specs.Refusals.{number};
ghost use Rattle.session_rules.specs.Said.{route_number, placed_number, routes_with};

use refusals::Refusal;
use router::{MAX_PARTITION, MAX_ROUTES, ROUTE_LEN};
use rows::MESSAGE_LEN;

// Question 3 of one route more: a place, a partition, an address that is not listed yet.
#[tactic(auto, unfolding(session_rules::specs::Said::route_number))]
fn check_route(routes: &[u8], p: &[u8]) -> Result<(), Refusal>
    ensures { number result ≡ route_number routes.now p.now }
{
    if routes.len() / ROUTE_LEN < MAX_ROUTES
        && ROUTE_LEN <= p.len()
        && p[MESSAGE_LEN] <= MAX_PARTITION
        && rows::find_row(routes, ROUTE_LEN, &p[..MESSAGE_LEN]).is_none()
    {
        Ok(())
    } else {
        Err(Refusal::RoutesUnsound)
    }
}

// The lent routes, of which n bytes are listed, must have a place for it.
#[tactic(auto, unfolding(session_rules::specs::Said::placed_number))]
fn check_placed(routes: &[u8], n: usize, p: &[u8]) -> Result<(), Refusal>
    ensures { number result ≡ placed_number n routes.now p.now }
{
    if rows::sum_within(n, p.len(), routes.len()) {
        check_route(&routes[..n], p)
    } else {
        Err(Refusal::RoutesUnsound)
    }
}

// The route goes behind the n bytes, unless it is refused.
#[tactic(auto, unfolding(session_rules::specs::Said::routes_with))]
pub fn listed(routes: &mut [u8], n: usize, p: &[u8]) -> Result<(), Refusal>
    ensures { (number result ≡ placed_number n routes.old p.now) × (routes.new ≡ routes_with n routes.old p.now) }
{
    check_placed(&*routes, n, p)?;
    rows::copy_in(routes, n, p);
    Ok(())
}
