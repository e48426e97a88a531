//! Two threads on one book: what each call told them, and what each look saw, is what the histories have.
ghost use Rattle.std.specs.Prelude.{◌≡◌, ◌<◌, ◌≤◌, List, [], length};
ghost use Rattle.view_sums.specs.Total.{Each};
ghost use Rattle.flake_model.specs.Command.{Command};
ghost use Rattle.flake_model.specs.Deed.{entries_of};
ghost use Rattle.order_book.specs.Closed.{AreMeant, AreSeen, own_deeds};
ghost use Rattle.order_book.specs.Pages.{ShardList, SessionList};

use flake_base::{Entry, Memory};
use order_book::laws::{looks_begin, means};
use order_book::{
    Book, BookBlank, BookName, Deed, SessionSeat, SessionSeats, ShardSeat, ShardSeats,
};
use std::alloc::Global;
use std::marker::Brand;
use std::process::Abort;
use std::sync::{Mutex, Wait};
use std::test::Fail;
use std::thread::{Threads, join};

// A GET of a key that isn't there.
#[derive(Drop)]
struct Looked {
    at: Entry,
}

impl Deed for Looked {
    ghost use Rattle.std.specs.Prelude.{[]};
    ghost use Rattle.flake_model.specs.Store.{get, missing};

    ghost at = { λ d. d.at };

    ghost operation = { λ d. get [] };

    ghost answer = { λ d. missing };

    ghost found = { λ d. [] };

    ghost first = { λ d. 0 };

    ghost stored = { λ d. [] };

    fn entry(&self) -> Entry {
        self.at
    }
}

// A shard's seat with the entries of its deeds, as a lock holds them.
#[derive(Drop)]
struct ShardMap<N: BookName> {
    seat: ShardSeat<N>,
    history: Vec<Entry>,
    ghost kept: { history.items ≡ entries_of seat.told },
}

// What one call told its session.
#[derive(Clone, Copy, Drop)]
struct Noted {
    shard: u16,
    place: u64,
    at: Entry,
}

// What one look saw of a shard: the answer, and the shard's history then.
#[derive(Drop)]
struct Seen {
    shard: u16,
    place: u64,
    history: Vec<Entry>,
}

// What a session was told and saw.
#[derive(Drop)]
struct Told {
    notes: Vec<Noted>,
    sights: Vec<Seen>,
}

#[derive(Drop)]
struct Session<N: BookName> {
    seat: SessionSeat<N>,
    told: Told,
}

#[derive(Drop)]
struct Outcome {
    histories: Vec<(u16, Vec<Entry>)>,
    first: Told,
    second: Told,
}

fn enter<N: BookName>(
    shard_map: &mut ShardMap<N>,
    book: &Book<N>,
    mine: &mut SessionSeat<N>,
    call: u32,
) -> Result<Noted, Memory> {
    shard_map.history.reserve(1)?;
    let at = Entry {
        session: mine.session(),
        call,
        part: 0,
    };
    let deed = Looked { at };
    let place = book.meet(&mut shard_map.seat, mine, &deed);
    shard_map.history.push_reserved(deed.entry());
    Ok(Noted {
        shard: shard_map.seat.shard(),
        place,
        at,
    })
}

fn see<N: BookName>(
    alloc: Global,
    shard_map: &mut ShardMap<N>,
    book: &Book<N>,
    mine: &mut SessionSeat<N>,
) -> Result<Seen, Memory> {
    let place = book.both_lists(&mut shard_map.seat, mine);
    Ok(Seen {
        shard: shard_map.seat.shard(),
        place,
        history: shard_map.history.iter().copied().collect(alloc)?,
    })
}

// Calls go to the shard maps in turn, and behind each the session looks at the shard map.
fn work<N: BookName, R: Wait>(
    rt: &R,
    alloc: Global,
    shard_maps: &[Mutex<ShardMap<N>>],
    book: &Book<N>,
    seat: SessionSeat<N>,
    calls: u32,
) -> Result<Session<N>, Memory> {
    let mut seat = seat;
    let mut notes = Vec::new(alloc);
    let mut sights = Vec::new(alloc);
    for call in 0..calls {
        let Some(turn) = (call as usize).checked_rem(shard_maps.len()) else {
            return Err(Memory);
        };
        let Some(shard_map) = shard_maps.get(turn) else {
            return Err(Memory);
        };
        let mut guard = shard_map.lock(rt);
        let noted = enter(&mut guard, book, &mut seat, call)?;
        notes.push(noted)?;
        sights.push(see(alloc, &mut guard, book, &mut seat)?)?;
    }
    Ok(Session {
        seat,
        told: Told { notes, sights },
    })
}

type Both<N> = (Result<Session<N>, Memory>, Result<Session<N>, Memory>);

fn work_both<N: BookName + Send + Sync, R: Threads + Wait + Sync>(
    rt: &R,
    alloc: Global,
    shard_maps: &[Mutex<ShardMap<N>>],
    book: &Book<N>,
    first: SessionSeat<N>,
    second: SessionSeat<N>,
    calls: u32,
) -> Both<N> {
    join(
        rt,
        move || work(rt, alloc, shard_maps, book, first, calls),
        move || work(rt, alloc, shard_maps, book, second, calls),
    )
}

fn shard_maps_of<N: BookName>(
    alloc: Global,
    mut seats: ShardSeats<N>,
) -> Result<Vec<Mutex<ShardMap<N>>>, Memory>
    requires { Each (λ (list : ShardList). list.told ≡ []) seats.items }
{
    let mut shard_maps = Vec::new(alloc);
    while let Some(seat) = seats.pop() {
        let shard_map = ShardMap {
            seat,
            history: Vec::new(alloc),
        };
        shard_maps.push(Mutex::new(shard_map))?;
    }
    Ok(shard_maps)
}

// What the sessions saw is how the shards' lists begin, and what sessions were told to do the shards did.
fn close_told<N: BookName>(book: Book<N>, shards: ShardSeats<N>, sessions: SessionSeats<N>)
    ensures seen { AreSeen shards.items sessions.items }
    ensures meant { (commands : List (List Command)) → length shards.items ≡ N.sizes.shards
        → length sessions.items ≡ N.sizes.sessions
        → Each (λ (s : SessionList). AreMeant commands (own_deeds s)) sessions.items
        → Each (λ (s : ShardList). AreMeant commands s.told) shards.items }
{
    book.close(shards, sessions);
    looks_begin();
    means();
}

fn close_all<N: BookName>(
    alloc: Global,
    book: Book<N>,
    shard_maps: Vec<Mutex<ShardMap<N>>>,
    first: Session<N>,
    second: Session<N>,
) -> Result<Outcome, Memory> {
    let mut shards = ShardSeats::with_room(alloc, shard_maps.len())?;
    let mut histories = Vec::new(alloc);
    for shard_map in shard_maps {
        let ShardMap { seat, history } = shard_map.into_inner();
        histories.push((seat.shard(), history))?;
        shards.push(seat)?;
    }
    let mut sessions = SessionSeats::with_room(alloc, 2)?;
    sessions.push(first.seat)?;
    sessions.push(second.seat)?;
    close_told(book, shards, sessions);
    Ok(Outcome {
        histories,
        first: first.told,
        second: second.told,
    })
}

fn run_named<N: BookName + Send + Sync, R: Threads + Wait + Sync>(
    rt: &R,
    alloc: Global,
    blank: BookBlank,
    calls: u32,
) -> Result<Outcome, Memory>
    requires { (N.table ≡ blank.table) × (N.sizes ≡ blank.sizes) }
{
    let (book, shards, mut sessions) = blank.name::<N>();
    let (Some(second), Some(first)) = (sessions.pop(), sessions.pop()) else {
        return Err(Memory);
    };
    let shard_maps = shard_maps_of(alloc, shards)?;
    let (first, second) = work_both(
        rt,
        alloc,
        shard_maps.as_slice(),
        &book,
        first,
        second,
        calls,
    );
    close_all(alloc, book, shard_maps, first?, second?)
}

fn run<R: Threads + Wait + Sync>(
    rt: &R,
    alloc: Global,
    shards: u16,
    calls: u32,
) -> Result<Outcome, Memory>
    requires { (0 < shards) × (shards ≤ 16) }
{
    let blank = BookBlank::open(alloc, shards, 2)?;
    run_named::<Brand, R>(rt, alloc, blank, calls)
}

// Whether the history of the note's shard has its entry at its place.
fn stands(outcome: &Outcome, noted: &Noted) -> bool {
    for (shard, history) in &outcome.histories {
        if *shard == noted.shard && history.get(noted.place as usize) == Some(&noted.at) {
            return true;
        }
    }
    false
}

fn all_stand(outcome: &Outcome, notes: &[Noted]) -> bool {
    for noted in notes {
        if !stands(outcome, noted) {
            return false;
        }
    }
    true
}

// Whether the look's answer is the length of what it saw, and the shard's history begins with that.
fn begins(outcome: &Outcome, seen: &Seen) -> bool {
    for (shard, history) in &outcome.histories {
        if *shard == seen.shard && history.starts_with(seen.history.as_slice()) {
            return seen.history.len() as u64 == seen.place;
        }
    }
    false
}

fn all_begin(outcome: &Outcome, sights: &[Seen]) -> bool {
    for seen in sights {
        if !begins(outcome, seen) {
            return false;
        }
    }
    true
}

// The places that the notes have in a shard rise.
fn rise(notes: &[Noted], shard: u16) -> bool {
    let mut least = 0;
    for noted in notes {
        if noted.shard == shard {
            if noted.place < least {
                return false;
            }
            least = noted.place;
        }
    }
    true
}

fn all_rise(notes: &[Noted], shards: u16) -> bool {
    for shard in 0..shards {
        if !rise(notes, shard) {
            return false;
        }
    }
    true
}

// How many entries all histories have.
fn entered(outcome: &Outcome) -> usize {
    let mut count: usize = 0;
    for (_, history) in &outcome.histories {
        count = count.saturating_add(history.len());
    }
    count
}

// What a session of 100 calls was told and saw is what the histories have.
fn check_told(rt: &impl Abort, outcome: &Outcome, told: &Told, shards: u16) {
    let notes = told.notes.as_slice();
    let sights = told.sights.as_slice();
    assert!(rt; notes.len() == 100 && sights.len() == 100);
    assert!(rt; all_stand(outcome, notes));
    assert!(rt; all_rise(notes, shards));
    assert!(rt; all_begin(outcome, sights));
}

fn check<R: Threads + Wait + Sync + Abort>(rt: &R, alloc: Global, shards: u16) -> Result<(), Fail>
    requires { (0 < shards) × (shards ≤ 16) }
{
    let outcome = run(rt, alloc, shards, 100)?;
    assert!(rt; outcome.histories.len() == shards as usize && entered(&outcome) == 200);
    check_told(rt, &outcome, &outcome.first, shards);
    check_told(rt, &outcome, &outcome.second, shards);
    Ok(())
}

#[test]
fn lists_agree_on_one_shard(rt: HostRuntime) -> Result<(), Fail> {
    check(&rt, rt.alloc(), 1)
}

#[test]
fn lists_agree_on_eight_shards(rt: HostRuntime) -> Result<(), Fail> {
    check(&rt, rt.alloc(), 8)
}

#[derive(Clone, Copy, PartialEq)]
enum Act {
    Look,
    Enter,
}

// One thread's turns: which session, at which shard map, what it does, and what it is answered.
static TURNS: [(u16, usize, Act, u64); 12] = [
    (0, 0, Act::Look, 0),
    (0, 0, Act::Enter, 0),
    (1, 0, Act::Look, 1),
    (1, 0, Act::Enter, 1),
    (0, 0, Act::Look, 2),
    (0, 1, Act::Look, 0),
    (1, 1, Act::Enter, 0),
    (0, 1, Act::Look, 1),
    (0, 1, Act::Look, 1),
    (0, 0, Act::Enter, 2),
    (1, 0, Act::Look, 3),
    (1, 1, Act::Look, 1),
];

fn take<N: BookName>(
    alloc: Global,
    shard_map: &mut ShardMap<N>,
    book: &Book<N>,
    mine: &mut SessionSeat<N>,
    act: Act,
) -> Result<u64, Memory> {
    match act {
        Act::Look => Ok(see(alloc, shard_map, book, mine)?.place),
        Act::Enter => Ok(enter(shard_map, book, mine, 0)?.place),
    }
}

// Whether each of the turns is answered as it says.
fn all_answered<N: BookName, R: Wait>(
    rt: &R,
    alloc: Global,
    blank: BookBlank,
) -> Result<bool, Memory>
    requires { (N.table ≡ blank.table) × (N.sizes ≡ blank.sizes) }
{
    let (book, shards, mut sessions) = blank.name::<N>();
    let (Some(mut second), Some(mut first)) = (sessions.pop(), sessions.pop()) else {
        return Err(Memory);
    };
    let shard_maps = shard_maps_of(alloc, shards)?;
    let mut all = true;
    for (session, turn, act, answer) in TURNS {
        let Some(shard_map) = shard_maps.get(turn) else {
            return Err(Memory);
        };
        let mut guard = shard_map.lock(rt);
        let mine = if session == 0 {
            take(alloc, &mut guard, &book, &mut first, act)?
        } else {
            take(alloc, &mut guard, &book, &mut second, act)?
        };
        all = all && mine == answer;
    }
    Ok(all)
}

#[test]
fn a_look_answers_how_many_deeds_the_shard_has(rt: HostRuntime) -> Result<(), Fail> {
    let blank = BookBlank::open(rt.alloc(), 2, 2)?;
    assert!(rt; all_answered::<Brand, HostRuntime>(&rt, rt.alloc(), blank)?);
    Ok(())
}

fn shard_numbers_of<N: BookName>(alloc: Global, seats: &ShardSeats<N>) -> Result<Vec<u16>, Memory> {
    let mut numbers = Vec::new(alloc);
    for i in 0..seats.len() {
        numbers.push(seats.get(i).shard())?;
    }
    Ok(numbers)
}

fn session_numbers_of<N: BookName>(
    alloc: Global,
    seats: &SessionSeats<N>,
) -> Result<Vec<u16>, Memory> {
    let mut numbers = Vec::new(alloc);
    for i in 0..seats.len() {
        numbers.push(seats.get(i).session())?;
    }
    Ok(numbers)
}

// The numbers that the seats of a new book tell, from the first on.
fn numbers_of<N: BookName>(alloc: Global, blank: BookBlank) -> Result<(Vec<u16>, Vec<u16>), Memory>
    requires { (N.table ≡ blank.table) × (N.sizes ≡ blank.sizes) }
{
    let (book, shards, sessions) = blank.name::<N>();
    let numbers = (
        shard_numbers_of(alloc, &shards)?,
        session_numbers_of(alloc, &sessions)?,
    );
    book.close(shards, sessions);
    Ok(numbers)
}

#[test]
fn a_book_opens_at_its_bounds(rt: HostRuntime) -> Result<(), Fail> {
    for (shards, sessions) in [(1, 1), (1, 16), (16, 1), (16, 16)] {
        let blank = BookBlank::open(rt.alloc(), shards, sessions)?;
        let (shard_numbers, session_numbers) = numbers_of::<Brand>(rt.alloc(), blank)?;
        assert!(rt; shard_numbers.iter().copied().eq(0..shards));
        assert!(rt; session_numbers.iter().copied().eq(0..sessions));
    }
    Ok(())
}
