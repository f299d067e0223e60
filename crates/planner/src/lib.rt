// Cutting plans: a check for lists of block requests, and a planner that writes one.
#![tactic(auto)]

ghost use Rattle.std.specs.Prelude.{◌≡◌, ◌&&◌};
ghost use Rattle.pkt.specs.Answers.{says};
ghost use Rattle.ezpkt.specs.Build.{start_at, end_at};
ghost use Rattle.planner.specs.Cutting.{piece_count, length_at};
ghost use Rattle.planner.specs.Steps.{look_none, may_follow, look_with, complete, nth_of};
ghost use Rattle.planner.specs.Answers.{judge_answer, check_plan, can_plan, plan_answer, Decided, Plans};

use ezpkt::ip4;
use pieces::BlockRequest;
use pkt::limit;
use pkt::refusal::Refusal;

// What is known after so many requests: the bytes before next were carried; whether all was good so far; whether the last has MF clear. (Truths and
// no Option: each field is told by what is specified, look_with, whatever the others are.)
#[derive(Clone, Copy, Drop)]
pub struct Look {
    pub n: usize,
    pub m: usize,
    pub next: usize,
    pub good: bool,
    pub ended: bool,
}

// How many requests are written, of n bytes with so many blocks in a full one.
#[derive(Clone, Copy, Drop)]
pub struct Job {
    pub count: usize,
    pub n: usize,
    pub blocks: u16,
}

// How many pieces n bytes take on a link of m bytes.
pub fn count(n: usize, m: usize) -> usize
    ensures { result ≡ piece_count n m }
{
    let room = m.saturating_sub(20);
    let full = room / 8 * 8;
    if full == 0 {
        return 1;
    }
    1 + n.saturating_sub(room).div_ceil(full)
}

// The length in blocks of the piece at block off of n bytes, with so many pieces behind it and so many blocks in a full one.
pub fn length_at(blocks: usize, behind: usize, off: u16, n: usize) -> usize
    ensures { result ≡ length_at blocks behind off n }
{
    if behind > 0 {
        return blocks;
    }
    n.saturating_sub(8 * (off as usize)).div_ceil(8)
}

// Before the first request.
pub fn look_none(n: usize, m: usize) -> Look
    ensures { result ≡ look_none n m }
{
    Look {
        n,
        m,
        next: 0,
        good: true,
        ended: false,
    }
}

// start_of and end_of are ezpkt's span_of, which is inside its private writer.
fn start_of(r: BlockRequest, n: usize) -> usize
    ensures { result ≡ start_at r.off n }
{
    (8 * (r.off as usize)).min(n)
}

fn end_of(r: BlockRequest, n: usize) -> usize
    ensures { result ≡ end_at r.off r.len n }
{
    (8 * (r.off as usize) + 8 * (r.len as usize)).min(n)
}

// Whether a request may stand next.
fn may_follow(look: Look, r: BlockRequest) -> bool
    ensures { result ≡ may_follow look r }
{
    if look.ended {
        return false;
    }
    if 8 * (r.off as usize) > look.n {
        return false;
    }
    if ip4::fragment_size(r.off, r.len, look.n) > look.m {
        return false;
    }
    let start = start_of(r, look.n);
    if end_of(r, look.n) <= start {
        return true;
    }
    start == look.next
}

fn next_after(look: Look, r: BlockRequest) -> usize
    ensures { result ≡ (look_with look r).next }
{
    let end = end_of(r, look.n);
    if start_of(r, look.n) < end {
        return end;
    }
    look.next
}

fn good_after(look: Look, r: BlockRequest) -> bool
    ensures { result ≡ look.good && may_follow look r }
{
    look.good && may_follow(look, r)
}

// One request more.
pub fn look_at(look: Look, r: BlockRequest) -> Look
    ensures { result ≡ look_with look r }
{
    Look {
        n: look.n,
        m: look.m,
        next: next_after(look, r),
        good: good_after(look, r),
        ended: end_of(r, look.n) == look.n,
    }
}

// Whether all was good, the last has MF clear, and every byte was carried.
fn is_complete(last: Look) -> bool
    ensures { result ≡ complete last }
{
    last.good && last.ended && last.next == last.n
}

// The answer where so much is known after the last request.
pub fn judge(look: Look) -> Result<bool, Refusal>
    ensures { says result ≡ judge_answer look.n (complete look) }
{
    if look.n > limit::IP_PAYLOAD {
        return Err(Refusal::TooLong);
    }
    Ok(is_complete(look))
}

// Whether the list is a plan of n bytes for a link of m, or 1 where n is above 65,515.
pub fn is_plan(n: usize, m: usize, list: &[BlockRequest]) -> Result<bool, Refusal>
    ensures { says result ≡ check_plan n m list.now }
{
    let mut look = look_none(n, m);
    for r in list {
        look = look_at(look, *r);
    }
    judge(look)
}

// Whether there is a plan of n bytes for a link of m.
fn can_plan(n: usize, m: usize) -> bool
    ensures { result ≡ can_plan n m }
{
    if m < 20 {
        return false;
    }
    if n <= m - 20 {
        return true;
    }
    m >= 28
}

// The answer for a list of so many places.
fn plan_answer(n: usize, m: usize, places: usize) -> Result<usize, Refusal>
    ensures { says result ≡ plan_answer n m places }
{
    if n > limit::IP_PAYLOAD {
        return Err(Refusal::TooLong);
    }
    if !can_plan(n, m) {
        return Err(Refusal::NoPlan);
    }
    let fewest = count(n, m);
    if places < fewest {
        return Err(Refusal::NoRoom);
    }
    Ok(fewest)
}

// What is decided for a list of so many places. (n and m go apart, here and above: five of these calls are public. The blocks are told modulo 65,536,
// as job_for tells them, and so is what nth gives of any job.)
pub fn decide(n: usize, m: usize, places: usize) -> Result<Job, Refusal>
    ensures { Decided n m places result }
{
    let count = plan_answer(n, m, places)?;
    Ok(Job {
        count,
        n,
        blocks: (m.saturating_sub(20) / 8 % 65536) as u16,
    })
}

// The request at index k.
pub fn nth(job: Job, k: usize) -> BlockRequest
    ensures { result ≡ nth_of job k }
{
    let blocks = job.blocks as usize;
    let off = (k % 8192 * blocks % 65536) as u16;
    let behind = job.count.saturating_sub(1).saturating_sub(k);
    let len = length_at(blocks, behind, off, job.n);
    BlockRequest {
        off,
        len: (len % 65536) as u16,
    }
}

// Writes the fewest requests that carry n bytes on a link of m into the front of the list; or refuses and leaves it as it was.
pub fn plan(n: usize, m: usize, list: &mut [BlockRequest]) -> Result<usize, Refusal>
    ensures { Plans n m list.old result list.new }
{
    let job = decide(n, m, list.len())?;
    for k in 0..job.count {
        list[k] = nth(job, k);
    }
    Ok(job.count)
}
