// How a table begins, and how its passes come and go.
ghost use Rattle.std.specs.Prelude.{◌≡◌, ◌+◌, ◌*◌, ◌<◌, ◌≤◌, ◌^◌, [], Some, length, map, replicate, IfOk, IfErr};
ghost use Rattle.std.specs.Prelude.{vec_capacity, vec_len};
ghost use Rattle.pin_words.specs.Layout.{word_count};
ghost use Rattle.cell_grid.specs.Pyramid.{cells_of, frame_of, voxels_of};
ghost use Rattle.pass_roster.specs.Ends.{AllJoined};
ghost use Rattle.pin_words.specs.declared.doing.Stage.TheVariants.{Idle};
ghost use Rattle.pin_words.specs.Words.{passes};
ghost use Rattle.pin_words.specs.Tells.{SawOthers, HasSeen};
ghost use Rattle.pin_words.specs.Ends.{starting, parent, child, IsBare, Rejoined};
ghost use Rattle.pin_rule.specs.Plans.{plan_of, IsPlanOf, IsTable};
ghost use Rattle.pin_rule.specs.Calls.{SamePass, view, plan_at, made_of, IsPassOf, Rests};

use crate::made::Made;
use crate::pass::{Pass, View};
use crate::pin_steps::Place;
use crate::pins::{Pins, Words};
use crate::plays::{Another, Kept, Rejoin, Settle};
use crate::stores::{unwrap_all, wrap};
use arr_history::Unmade;
use atomic_table::{Refused, Table};
use cell_file::Keys;
use cell_grid::Geometry;
use cell_store::Store;
use std::alloc::Global;
use std::snapshot::Snapshot;

pub(crate) type CellTable<S> = Table<Option<S>, View<S>, Made<S>, Kept, Global>;

impl<S: Store> Pins<S> {
    /// A table in which no cell is live, and its first pass, which has the number 0. It keeps copies of the geometry and of
    /// the keys. Where memory is wanting, the stores come back.
    pub fn new(
        alloc: Global,
        geometry: &Geometry,
        keys: &Keys,
        slots: u32,
        stores: Vec<S>,
    ) -> Result<(Pins<S>, Pass<S>), Unmade<S>>
        requires slots { (2 ≤ slots) × (slots ≤ 4096) }
        requires keys { keys.now.levels ≡ geometry.now }
        requires frames { slots * frame_of geometry.now ≤ 2 ^ 24 }
        requires stores { (0 < length stores.items) × (length stores.items ≤ 16) }
        ensures pass { IfOk result (λ r. IsPassOf r.0 r.1 × (view r.1 ≡ starting (plan_at S.contents r.0))) }
        ensures made { IfOk result (λ r. ((made_of r.0).levels.value ≡ geometry.now) × ((made_of r.0).keys.value ≡ keys.now) × ((made_of r.0).slots ≡ slots) × ((made_of r.0).stores.value.items ≡ stores.items)) }
        ensures unmade { IfErr result (λ u. u.stores.items ≡ stores.items) }
    {
        let Ok(geometry) = geometry.copy() else {
            return Err(Unmade { stores });
        };
        let Ok(keys) = keys.copy() else {
            return Err(Unmade { stores });
        };
        make(alloc, geometry, keys, slots, stores)
    }

    /// Draws the next number for a new pass, which has seen as much as the first and holds nothing. At most 64 passes are
    /// out at once, the first among them.
    pub fn split(&self, pass: &mut Pass<S>) -> Pass<S>
        requires pass { IsPassOf self.now pass.old }
        requires first { (view pass.old).number ≡ 0 }
        requires room { (view pass.old).drawn < length (view pass.old).ended + 64 }
        requires numbers { (view pass.old).drawn < 2 ^ 31 }
        ensures kept { IsPassOf self.now pass.new × (view pass.new ≡ parent (view pass.old)) }
        ensures given { IsPassOf self.now result × (view result ≡ child (view pass.old)) }
    {
        let seat = split_seat(&self.table.shared, &mut pass.seat);
        Pass {
            seat,
            list: Vec::new(self.alloc),
        }
    }

    /// Takes a pass that holds nothing into the first one, which adds its number, its events and its rises to `ended`. What
    /// either had seen is a beginning of what the first has seen then, which is legal and has all events of its own. What it
    /// hadn't seen before is others' doing.
    pub fn join(&self, pass: &mut Pass<S>, other: Pass<S>)
        requires pass { IsPassOf self.now pass.old }
        requires other { IsPassOf self.now other }
        requires first { (view pass.old).number ≡ 0 }
        requires bare { IsBare (view other) }
        ensures pass { IsPassOf self.now pass.new }
        ensures joined { Rejoined (view pass.old) (view other) (view pass.new) }
        ensures seen { HasSeen (plan_at S.contents self.now) (view pass.new) }
        ensures foreign { SawOthers (view pass.old).number (view pass.old).seen (view pass.new).seen }
    {
        let other = other.into_seat();
        join_seats(&self.table.shared, &mut pass.seat, other);
    }
}

// A table with a geometry and keys of its own, and its first pass.
fn make<S: Store>(
    alloc: Global,
    geometry: Geometry,
    keys: Keys,
    slots: u32,
    stores: Vec<S>,
) -> Result<(Pins<S>, Pass<S>), Unmade<S>>
    requires slots { (2 ≤ slots) × (slots ≤ 4096) }
    requires keys { keys.levels ≡ geometry }
    requires frames { slots * frame_of geometry ≤ 2 ^ 24 }
    requires stores { (0 < length stores.items) × (length stores.items ≤ 16) }
    ensures pass { IfOk result (λ r. IsPassOf r.0 r.1 × (view r.1 ≡ starting (plan_at S.contents r.0))) }
    ensures made { IfOk result (λ r. ((made_of r.0).levels.value ≡ geometry) × ((made_of r.0).keys.value ≡ keys) × ((made_of r.0).slots ≡ slots) × ((made_of r.0).stores.value.items ≡ stores.items)) }
    ensures unmade { IfErr result (λ u. u.stores.items ≡ stores.items) }
{
    let made = tell(&geometry, &keys, slots, &stores);
    let cells = geometry.cells() as usize;
    let frame = geometry.frame() as usize;
    let lanes = stores.len();
    let (table, seat, list) = open_table(alloc, cells, lanes, frame, &made, stores)?;
    let pins = Pins {
        alloc,
        geometry,
        keys,
        cells,
        slots: slots as usize,
        lanes,
        frame,
        table,
    };
    Ok((pins, Pass { seat, list }))
}

// What a table is told when it is made.
fn tell<S>(geometry: &Geometry, keys: &Keys, slots: u32, stores: &Vec<S>) -> Made<S>
    requires slots { (2 ≤ slots) × (slots ≤ 4096) }
    requires keys { keys.now.levels ≡ geometry.now }
    requires stores { (0 < length stores.now.items) × (length stores.now.items ≤ 16) }
    ensures plan { IsPlanOf result }
    ensures same { (result.levels.value ≡ geometry.now) × (result.keys.value ≡ keys.now) × (result.slots ≡ slots) × (result.stores.value.items ≡ stores.now.items) }
{
    let _limits = (geometry.cells(), geometry.frame()); // read for what their contracts tell the proof
    Made {
        levels: Snapshot::of(geometry),
        keys: Snapshot::of(keys),
        slots,
        stores: Snapshot::of(stores),
    }
}

// Lays out the words and the homes of a table. The list in which the stores came is kept, empty.
fn open_table<S: Store>(
    alloc: Global,
    cells: usize,
    lanes: usize,
    frame: usize,
    made: &Made<S>,
    mut stores: Vec<S>,
) -> Result<(CellTable<S>, Place<S>, Vec<S>), Unmade<S>>
    requires made { IsPlanOf made.now }
    requires sizes { (cells ≡ cells_of made.now.levels.value) × (lanes ≡ length stores.items) × (frame ≡ frame_of made.now.levels.value) }
    requires stores { made.now.stores.value.items ≡ stores.items }
    requires frames { made.now.slots * frame ≤ 2 ^ 24 }
    ensures table { IfOk result (λ r. (r.0.shared.key ≡ made.now) × IsTable made.now r.0.shared.table_id.words r.0.shared.table_id.slots) }
    ensures seat { IfOk result (λ r. (r.1.table_id ≡ r.0.shared.table_id) × (r.1.me ≡ (starting (plan_of S.contents (Some made.now)), []))) }
    ensures list { IfOk result (λ r. (r.2.items ≡ []) × (lanes ≤ vec_capacity r.2)) }
    ensures unmade { IfErr result (λ u. u.stores.items ≡ stores.items) }
{
    let slots = made.slots as usize;
    let count = 1 + cells + slots + lanes + slots * frame;
    let Ok(words) = Vec::from_elem(alloc, 0u64, count) else {
        return Err(Unmade { stores });
    };
    let Ok(mut homes) = Vec::with_capacity(alloc, lanes) else {
        return Err(Unmade { stores });
    };
    wrap(&mut stores, &mut homes);
    match fill_table(alloc, words.as_slice(), homes, made) {
        Ok((table, seat)) => Ok((table, seat, stores)),
        Err(homes) => Err(give_back(stores, homes, made)),
    }
}

// A table of these words, which are all 0, and of these homes.
fn fill_table<S: Store>(
    alloc: Global,
    words: &[u64],
    homes: Vec<Option<S>>,
    made: &Made<S>,
) -> Result<(CellTable<S>, Place<S>), Vec<Option<S>>>
    requires made { IsPlanOf made.now }
    requires homes { homes.items ≡ map Some made.now.stores.value.items }
    requires words { words.now ≡ replicate (word_count (plan_of S.contents (Some made.now))) 0 }
    ensures table { IfOk result (λ r. (r.0.shared.key ≡ made.now) × (r.0.shared.table_id.words ≡ length words.now) × (r.0.shared.table_id.slots ≡ length homes.items)) }
    ensures seat { IfOk result (λ r. (r.1.table_id ≡ r.0.shared.table_id) × (r.1.me ≡ (starting (plan_of S.contents (Some made.now)), []))) }
    ensures refused { IfErr result (λ h. h.items ≡ homes.items) }
{
    match Table::new(alloc, words, homes, made) {
        Ok((table, seat)) => Ok((table, seat)),
        Err(Refused { slots }) => Err(slots),
    }
}

// The stores as they came, in the list in which they came.
fn give_back<S>(mut list: Vec<S>, mut homes: Vec<Option<S>>, made: &Made<S>) -> Unmade<S>
    requires homes { homes.items ≡ map Some made.now.stores.value.items }
    requires list { (list.items ≡ []) × (vec_len homes ≤ vec_capacity list) }
    ensures { result.stores.items ≡ made.now.stores.value.items }
{
    unwrap_all(&mut list, &mut homes);
    homes.destroy_empty();
    Unmade { stores: list }
}

// A new seat beside that of the first pass.
fn split_seat<S: Store>(words: &Words<S>, seat: &mut Place<S>) -> Place<S>
    requires seat { (seat.old.table_id ≡ words.now.table_id) × (0 < words.now.table_id.words) }
    requires rests { Rests seat.old.me words.now.key }
    requires first { seat.old.me.0.number ≡ 0 }
    requires room { seat.old.me.0.drawn < length seat.old.me.0.ended + 64 }
    ensures seat { (seat.new.table_id ≡ seat.old.table_id) × (seat.new.id ≡ seat.old.id) × (seat.new.me ≡ (parent seat.old.me.0, seat.old.me.1)) }
    ensures given { (result.table_id ≡ seat.old.table_id) × (result.me ≡ (child seat.old.me.0, [])) }
{
    words.split_seat::<Another>(seat)
}

// Joins a seat into that of the first pass, and loads word 0 to learn that each had seen a beginning of the history.
fn join_seats<S: Store>(words: &Words<S>, seat: &mut Place<S>, other: Place<S>)
    requires seat { (seat.old.table_id ≡ words.now.table_id) × (other.table_id ≡ words.now.table_id) × (0 < words.now.table_id.words) }
    requires rests { Rests seat.old.me words.now.key × Rests other.me words.now.key }
    requires first { seat.old.me.0.number ≡ 0 }
    requires bare { IsBare other.me.0 }
    ensures seat { (seat.new.table_id ≡ seat.old.table_id) × (seat.new.id ≡ seat.old.id) × SamePass seat.old.me.0 seat.new.me.0 }
    ensures rests { Rests seat.new.me words.now.key }
    ensures joined { Rejoined seat.old.me.0 other.me.0 seat.new.me.0 }
    ensures seen { HasSeen (plan_of S.contents (Some words.now.key)) seat.new.me.0 }
    ensures foreign { SawOthers seat.old.me.0.number seat.old.me.0.seen seat.new.me.0.seen }
{
    words.join_seat::<Rejoin>(seat, other);
    words.load::<Settle<S>>(seat, 0);
}
