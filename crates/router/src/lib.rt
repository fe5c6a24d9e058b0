// The router: the partition of a message by its workchain and account. Routes are lent bytes, searched in order.
#![tactic(auto)]

ghost use Rattle.std.specs.Prelude.{◌≡◌};
ghost use Rattle.refusals.specs.Refusals.{number};
ghost use Rattle.router.specs.Router.{route_rows, none_twice, partitions_exist, routes_number, partition_of, answer_of, get_partition};

use refusals::Refusal;
use rows::MESSAGE_LEN;

pub const MAX_ROUTES: usize = 256;

pub const MAX_PARTITION: u8 = 7;

// A message, and the partition behind it.
pub const ROUTE_LEN: usize = MESSAGE_LEN + 1;

// Each address is looked for among the routes behind it. A `while` (no plainer): no iterator hands out a row with those
// behind it.
fn none_twice(routes: &[u8]) -> bool
    ensures { result ≡ none_twice (route_rows routes.now) }
{
    let mut left = routes;
    while let Some((route, behind)) = left.split_at_checked(ROUTE_LEN) {
        let address = &route[..MESSAGE_LEN];
        let None = rows::find_row(behind, ROUTE_LEN, address) else {
            return false;
        };
        left = behind;
    }
    true
}

fn partitions_exist(routes: &[u8]) -> bool
    ensures { result ≡ partitions_exist (route_rows routes.now) }
{
    routes
        .chunks_exact(ROUTE_LEN)
        .all(|route| rows::byte_at(route, MESSAGE_LEN) <= MAX_PARTITION)
}

// Question 3.
pub fn check_routes(routes: &[u8]) -> Result<(), Refusal>
    ensures { number result ≡ routes_number routes.now }
{
    if routes.len() % ROUTE_LEN != 0
        || MAX_ROUTES < routes.len() / ROUTE_LEN
        || !none_twice(routes)
        || !partitions_exist(routes)
    {
        return Err(Refusal::RoutesUnsound);
    }
    Ok(())
}

// For a caller that has asked question 3.
pub fn partition_of(routes: &[u8], message: &[u8]) -> u8
    ensures { result ≡ partition_of routes.now message.now }
{
    if message.len() != MESSAGE_LEN {
        return 0;
    }
    routes
        .chunks_exact(ROUTE_LEN)
        .find(|route| rows::starts_with(route, message))
        .map_or(0, |route| rows::byte_at(route, MESSAGE_LEN))
}

// The partition of a message; a message that is not 33 bytes long is unlisted.
pub fn get_partition(routes: &[u8], message: &[u8]) -> Result<u8, Refusal>
    ensures { answer_of result ≡ get_partition routes.now message.now }
{
    check_routes(routes)?;
    Ok(partition_of(routes, message))
}
