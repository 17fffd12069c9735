// The log of scores for C: scan, read and append over lent bytes.
ghost use Rattle.std.specs.Prelude.{◌≡◌};
ghost use Rattle.answer.specs.Answer.{answered, lent_after};
ghost use Rattle.score_log.specs.Records.{record_by};
ghost use Rattle.score_log.specs.Log.{whole_records, torn_rest, log_fault, numbers_of, patterns_of, cuts_of, scan_of, read_fault, read_into, append_of, lent_after_append};
ghost use Rattle.brinepulley.specs.Coded.{coded};

use crate::code;
use score_log::Record;

// How many whole records there are; the length of the rest is in `torn`.
pub fn brine_log_scan(log: &[u8], torn: &mut u64) -> i64
    ensures value { result ≡ coded (scan_of log.now) }
    ensures torn_after { torn.new ≡ lent_after (log_fault log.now) (torn_rest log.now) torn.old }
{
    code::whole(score_log::scan(log, torn))
}

// The same, and each record in lists that have room for all.
pub fn brine_log_read(
    log: &[u8],
    numbers: &mut [u32],
    bits: &mut [u64],
    cuts: &mut [u8],
    torn: &mut u64,
) -> i64
    ensures value { result ≡ coded (answered (read_fault log.now numbers.old bits.old cuts.old) (whole_records log.now)) }
    ensures numbers_after { numbers.new ≡ read_into (read_fault log.now numbers.old bits.old cuts.old) (numbers_of log.now) numbers.old }
    ensures bits_after { bits.new ≡ read_into (read_fault log.now numbers.old bits.old cuts.old) (patterns_of log.now) bits.old }
    ensures cuts_after { cuts.new ≡ read_into (read_fault log.now numbers.old bits.old cuts.old) (cuts_of log.now) cuts.old }
    ensures torn_after { torn.new ≡ lent_after (read_fault log.now numbers.old bits.old cuts.old) (torn_rest log.now) torn.old }
{
    code::whole(score_log::read(log, numbers, bits, cuts, torn))
}

// A record behind the last whole one of the first `used` bytes: the new used length.
pub fn brine_log_append(
    log: &mut [u8],
    used: usize,
    number: u32,
    inter: f64,
    importance: f64,
    backward: f64,
    forward: f64,
    threshold: f64,
    cut: u32,
) -> i64
    ensures value { result ≡ coded (append_of log.old used (record_by number inter importance backward forward threshold cut)) }
    ensures log_after { log.new ≡ lent_after_append log.old used (record_by number inter importance backward forward threshold cut) }
{
    let r = Record {
        number,
        inter_cost: inter,
        imp_block_cost: importance,
        backward_adjusted_cost: backward,
        forward_adjusted_cost: forward,
        threshold,
        cut,
    };
    code::whole(score_log::append(log, used, r))
}
