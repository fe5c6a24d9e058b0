// The memory of a session, and how much of it is lent to the calls.
ghost use Rattle.std.specs.Prelude.{◌≤◌};
ghost use Rattle.cache_rules.specs.Rules.{area_bytes};

use anchors_cache::TABLES_BYTES;
use cache_rules::AREA_BYTES;
use probe_reader::read::{Handed, MAX_PLACES, OUTPUT_BYTES};
use range_reader::Lent;
use range_rules::ENTRY_LEN;
use reader_rules::ExternalsReader;
use session_rules::Session;

const ROUTES_BYTES: usize = router::MAX_ROUTES * router::ROUTE_LEN;

// `lent` bytes of the message area and `places` places of the output are lent: the arrays are all the memory that there
// is, and a record says how much of it a call gets.
#[derive(Drop)]
pub struct Store {
    pub tables: [u8; TABLES_BYTES],
    pub area: [u8; AREA_BYTES],
    pub routes: [u8; ROUTES_BYTES],
    pub lent: usize,
    pub places: usize,
}

impl Store {
    pub fn new() -> Self {
        Store {
            tables: [0; TABLES_BYTES],
            area: [0; AREA_BYTES],
            routes: [0; ROUTES_BYTES],
            lent: AREA_BYTES,
            places: MAX_PLACES,
        }
    }

    pub fn lend_all(&mut self) {
        self.lent = AREA_BYTES;
        self.places = MAX_PLACES;
    }

    // The bytes of the output that are lent: its places, and some more that are too few for one.
    fn output_bytes(&self, number: u64) -> usize {
        if MAX_PLACES < self.places {
            return OUTPUT_BYTES;
        }
        ENTRY_LEN * self.places + number as usize % ENTRY_LEN
    }

    // How much of the area is lent.
    pub fn area_len(&self) -> usize
        ensures { result ≤ area_bytes }
    {
        self.lent.min(AREA_BYTES)
    }

    // What the read of the session's last record is handed.
    pub fn handed(&self, session: Session, reader: ExternalsReader) -> Handed<'_> {
        Handed {
            reader,
            cache: session.transaction,
            lent: Lent {
                tables: &self.tables,
                area: &self.area[..self.area_len()],
                routes: &self.routes[..session.routes_len.min(ROUTES_BYTES)],
            },
            output: self.output_bytes(session.records),
        }
    }
}
