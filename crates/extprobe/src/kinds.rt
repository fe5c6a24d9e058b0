// The records beyond those of extread, and question 17 of them.
ghost use Rattle.std.specs.Prelude.{◌≡◌, IfErr};
ghost use Rattle.refusals.specs.Refusals.{number_of};

use anchors_cache::{ANCHOR_LEN, INFO_LEN};
use cache_rules::AREA_BYTES;
use probe_reader::functions::FUNCTIONS;
use probe_reader::given::{PARTITION_LEN, RANGE_HEAD};
use refusals::Refusal;

// What a record is, by the number that it begins with.
#[derive(Clone, Copy, Debug, PartialEq, Eq)]
pub enum Kind {
    Range,
    Partition,
    Marks,
    Places,
    Limits,
    History,
    Cached,
    Area,
    Trim,
    One,
    Took,
    Function,
    InfoAt,
    InRange,
    New,
    Info,
}

// Here a record's number becomes its kind, or none (no plainer: the record has the number).
impl TryFrom<u16> for Kind {
    type Error = Refusal;

    ghost try_from_gives = { λ n r. IfErr r (λ e. number_of e ≡ 17) };

    fn try_from(number: u16) -> Result<Kind, Refusal> {
        match number {
            0x0101 => Ok(Kind::Range),
            0x0102 => Ok(Kind::Partition),
            0x0103 => Ok(Kind::Marks),
            0x0104 => Ok(Kind::Places),
            0x0105 => Ok(Kind::Limits),
            0x0106 => Ok(Kind::History),
            0x0107 => Ok(Kind::Cached),
            0x0108 => Ok(Kind::Area),
            0x0110 => Ok(Kind::Trim),
            0x0111 => Ok(Kind::One),
            0x0112 => Ok(Kind::Took),
            0x0113 => Ok(Kind::Function),
            0x0114 => Ok(Kind::InfoAt),
            0x0115 => Ok(Kind::InRange),
            0x0116 => Ok(Kind::New),
            0x0117 => Ok(Kind::Info),
            _ => Err(Refusal::Malformed),
        }
    }
}

fn is_flag(p: &[u8], at: usize) -> bool {
    records::is_byte_within(p, at, 0, 1)
}

fn is_partition(p: &[u8], at: usize) -> bool {
    records::is_byte_within(p, at, 0, 7)
}

// The marks of a range and of its eight partitions are 0 or 1. probe_reader cuts the rows as well: out of a function
// for both, its loop's proof lacks their width (tried).
fn has_marks(p: &[u8]) -> bool {
    let partitions = p.get(RANGE_HEAD..).unwrap_or_default();
    let mut rows = partitions.chunks_exact(PARTITION_LEN);
    is_flag(p, RANGE_HEAD - 1) && rows.all(|row| is_flag(row, 0))
}

impl Kind {
    // How long its payload is; a cached anchor's ends in the count of its messages and these.
    fn length(self, p: &[u8]) -> usize {
        match self {
            Kind::Range => RANGE_HEAD + 8 * PARTITION_LEN,
            Kind::Partition => 18,
            Kind::Marks => 10,
            Kind::Places | Kind::Area => 4,
            Kind::Limits => 16,
            Kind::History | Kind::Info => INFO_LEN,
            Kind::Cached => records::anchor_bytes(rows::num_at(p, ANCHOR_LEN - 2)),
            Kind::Trim | Kind::InfoAt => 8,
            Kind::One => 5,
            Kind::Took => 9,
            Kind::Function => 3,
            Kind::InRange => 12,
            Kind::New => 0,
        }
    }

    // Flags are 0 or 1, partitions at most 7; functions are the known ones, and no more of the area is lent than there
    // is.
    fn has_fields(self, p: &[u8]) -> bool {
        match self {
            Kind::Range => has_marks(p),
            Kind::Partition => is_partition(p, 0) && is_flag(p, 1),
            Kind::Marks => is_flag(p, 0) && is_flag(p, 1),
            Kind::Area => rows::num_at::<u32>(p, 0) as usize <= AREA_BYTES,
            Kind::One => is_flag(p, 4),
            Kind::Took => is_partition(p, 4),
            Kind::Function => {
                records::is_byte_within(p, 0, 1, FUNCTIONS) && is_partition(p, 1) && is_flag(p, 2)
            }
            Kind::Places
            | Kind::Limits
            | Kind::History
            | Kind::Cached
            | Kind::Trim
            | Kind::InfoAt
            | Kind::InRange
            | Kind::New
            | Kind::Info => true,
        }
    }

    // Question 17 of a record with this number: it comes behind the settings, and is well made.
    pub fn check(self, number: u64, p: &[u8]) -> Result<(), Refusal> {
        if number < 3 || p.len() != self.length(p) || !self.has_fields(p) {
            return Err(Refusal::Malformed);
        }
        Ok(())
    }
}
