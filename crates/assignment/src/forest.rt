//! The trees of a guess. Each grows from a name that has no number, its root: a name of a tree
//! reaches the numbers whose pairs with it are tight, and the names that have these numbers join
//! the tree, as in the primal-dual method (Kuhn 1955). All trees grow at once, while the potentials
//! of their names fall at one rate, and none takes what another holds. A tree is out once one of
//! its names reaches a number that nobody has, or has no potential left: then the names on the path
//! to the root take the numbers that they have reached, and the tree is felled. Its names may be
//! reached anew by the others, which stay as they are (tree grafting: Azad, Buluc and Pothen 2015).
//! So a root costs what its own tree holds, and not all that can be reached from it.
use crate::graph::Graph;
use std::alloc::{AllocError, Global};
use std::cmp::Reverse;
use std::collections::{BinaryHeap, VecDeque};

/// A name: its potential, in a tree as it was when the name joined; the place of its number; and
/// where it stands in a tree.
#[derive(Clone, Copy, Debug)]
struct GuessedName {
    y: u64,
    place: Option<u32>,
    /// The root of its tree, if it is in one.
    root: Option<u32>,
    /// The name that reached its number.
    parent: u32,
    /// The next name of the tree.
    next: Option<u32>,
    /// The level at which it is to be read again.
    alarm: u64,
}

/// A number: the name that has it, and whether that is in a tree.
#[derive(Clone, Copy, Debug)]
struct GuessedNumber {
    owner: Option<u32>,
    is_held: bool,
}

/// Names and numbers, and the trees that are growing. What is read most often, and for names and
/// numbers in any order, stands in lists of its own, which are short enough for a near cache.
#[derive(Drop)]
pub struct Forest {
    names: Vec<GuessedName>,
    /// The level at which nothing is left of a name's potential, if it is in a tree, and else 0.
    ends: Vec<u64>,
    numbers: Vec<GuessedNumber>,
    /// The potentials of the numbers, in a tree as they were when their names joined.
    z: Vec<u64>,
    /// How many trees there are.
    pub trees: usize,
    /// The level: by how much the potentials of names have fallen that were in trees all the time.
    now: u64,
    /// Names and the places of numbers that they reach at the level now.
    ready: VecDeque<(u32, u32)>,
    /// The names that are to be read again at a later level. Those with another alarm by now, or in
    /// no tree, are passed over.
    queue: BinaryHeap<(Reverse<u64>, u32)>,
    /// The places of the numbers of the tree that was felled last.
    freed: Vec<u32>,
}

impl Forest {
    /// Nobody has a number yet, and no tree grows. A name's potential is its heaviest pair's
    /// weight.
    pub fn new(alloc: Global, graph: &Graph) -> Result<Self, AllocError> {
        let mut forest = Forest {
            names: Vec::with_capacity(alloc, graph.size as usize)?,
            ends: vec![in alloc; 0_u64; graph.size as usize]?,
            numbers: vec![in alloc; no_number(); graph.numbers.len()]?,
            z: vec![in alloc; 0_u64; graph.numbers.len()]?,
            trees: 0,
            now: 0,
            ready: VecDeque::new(alloc),
            queue: BinaryHeap::new(alloc),
            freed: Vec::new(alloc),
        };
        for name in 0..graph.size {
            let mut most = 0;
            for pair in graph.pairs_of(name) {
                most = pair.weight.max(most);
            }
            forest.names.push(no_name(most))?;
        }
        Ok(forest)
    }

    /// A name as it is now.
    fn name(&self, name: u32) -> GuessedName {
        match self.names.get(name as usize) {
            Some(found) => *found,
            None => no_name(0),
        }
    }

    /// The number at a place as it is now.
    fn number(&self, place: u32) -> GuessedNumber {
        match self.numbers.get(place as usize) {
            Some(found) => *found,
            None => no_number(),
        }
    }

    /// The level at which nothing is left of a name's potential, or 0 where it is in no tree.
    fn end(&self, name: u32) -> u64 {
        match self.ends.get(name as usize) {
            Some(end) => *end,
            None => 0,
        }
    }

    fn set_end(&mut self, name: u32, level: u64) {
        if let Some(end) = self.ends.get_mut(name as usize) {
            *end = level;
        }
    }

    /// The place of the number that a name has.
    pub fn place(&self, name: u32) -> Option<u32> {
        self.name(name).place
    }

    /// The potential of the number at a place, if that is in no tree.
    pub fn z(&self, place: u32) -> u64 {
        match self.z.get(place as usize) {
            Some(z) => *z,
            None => 0,
        }
    }

    /// Begins anew at level 0, where no tree grows.
    pub fn restart(&mut self) {
        self.trees = 0;
        self.now = 0;
        self.ready.clear();
        self.queue.clear();
    }

    /// Begins a tree with a name that has no number.
    pub fn plant(&mut self, graph: &Graph, root: u32) -> Result<(), AllocError> {
        self.trees = self.trees.saturating_add(1);
        self.enter(root, root, root);
        self.read(graph, root)
    }

    /// Takes a name into the tree of a root, from the name that reached its number.
    fn enter(&mut self, name: u32, root: u32, parent: u32) {
        let mut next = None;
        if name != root {
            if let Some(first) = self.names.get_mut(root as usize) {
                next = first.next;
                first.next = Some(name);
            }
        }
        let mut end = 0;
        if let Some(now) = self.names.get_mut(name as usize) {
            now.root = Some(root);
            now.parent = parent;
            now.next = next;
            end = self.now.saturating_add(now.y);
        }
        self.set_end(name, end);
        if let Some(place) = self.place(name) {
            if let Some(held) = self.numbers.get_mut(place as usize) {
                held.is_held = true;
            }
        }
    }

    /// Reads the pairs of a name of a tree: the tree is out, or the name has reached what it can at
    /// the level now, and waits for a later one.
    fn read(&mut self, graph: &Graph, name: u32) -> Result<(), AllocError> {
        let high = self.end(name).saturating_sub(self.now);
        if high == 0 {
            return self.serve(graph, name, None);
        }
        for pair in graph.pairs_of(name) {
            if pair.weight == high && self.number(pair.place).owner.is_none() {
                return self.serve(graph, name, Some(pair.place));
            }
        }
        self.set_alarm(name, u64::MAX);
        self.reach(graph, name, high)
    }

    /// Reaches the numbers of a name's pairs that are tight, and has it wait for the level at which
    /// the next is, or nothing of the potential that it has now is left.
    fn reach(&mut self, graph: &Graph, name: u32, high: u64) -> Result<(), AllocError> {
        let mut least = high;
        for pair in graph.pairs_of(name) {
            // as no potential is below 0, the pair is no nearer than this
            if high.saturating_sub(pair.weight) >= least {
                continue;
            }
            let slack = high.saturating_add(self.z(pair.place));
            let slack = slack.saturating_sub(pair.weight);
            if slack >= least || self.number(pair.place).is_held {
                continue;
            }
            if slack == 0 {
                self.reach_now(graph, name, pair.place)?;
            } else {
                least = slack;
            }
        }
        self.wait(name, self.now.saturating_add(least))
    }

    /// Notes that a name reaches a number at the level now. Where there are as many notes as pairs,
    /// the name is to be read again in place of one more.
    fn reach_now(&mut self, graph: &Graph, name: u32, place: u32) -> Result<(), AllocError> {
        if self.ready.len() >= graph.pairs.len() {
            return self.wait(name, self.now);
        }
        self.ready.push_back((name, place))?;
        Ok(())
    }

    fn set_alarm(&mut self, name: u32, level: u64) {
        if let Some(now) = self.names.get_mut(name as usize) {
            now.alarm = level;
        }
    }

    /// Has a name read again at a level, unless it is to be read before that.
    fn wait(&mut self, name: u32, level: u64) -> Result<(), AllocError> {
        if level >= self.name(name).alarm {
            return Ok(());
        }
        self.set_alarm(name, level);
        if self.queue.len() / 2 > self.names.len() {
            self.sweep()?;
        }
        self.queue.push((Reverse(level), name))?;
        Ok(())
    }

    /// Drops what is passed over from the queue.
    fn sweep(&mut self) -> Result<(), AllocError> {
        self.queue.clear();
        for at in 0..self.names.len() {
            let name = u32::try_from(at).unwrap_or(u32::MAX);
            let now = self.name(name);
            if now.root.is_some() {
                self.queue.push((Reverse(now.alarm), name))?;
            }
        }
        Ok(())
    }

    /// The tree of a name is out by a number that nobody has, or by the name itself, which is left
    /// with none.
    fn serve(&mut self, graph: &Graph, name: u32, place: Option<u32>) -> Result<(), AllocError> {
        let Some(root) = self.name(name).root else {
            return Ok(());
        };
        self.fell(root)?;
        self.flip(root, name, place);
        if self.trees > 0 {
            self.free(graph)?;
        }
        Ok(())
    }

    /// Takes the names of a root's tree out of it: lowers them to the level now, and raises their
    /// numbers.
    pub fn fell(&mut self, root: u32) -> Result<(), AllocError> {
        self.trees = self.trees.saturating_sub(1);
        self.freed.clear();
        let mut first = Some(root);
        for _ in 0..self.names.len() {
            let Some(name) = first else {
                return Ok(());
            };
            let now = self.name(name);
            let high = self.end(name).saturating_sub(self.now);
            self.set_end(name, 0);
            if let Some(felled) = self.names.get_mut(name as usize) {
                felled.y = high;
                felled.root = None;
            }
            if let Some(place) = now.place {
                self.give_back(place, now.y.saturating_sub(high));
                self.freed.push(place)?;
            }
            first = now.next;
        }
        Ok(())
    }

    /// Raises a number by what its name was lowered, and holds it no more.
    fn give_back(&mut self, place: u32, by: u64) {
        if let Some(z) = self.z.get_mut(place as usize) {
            *z = z.saturating_add(by);
        }
        if let Some(held) = self.numbers.get_mut(place as usize) {
            held.is_held = false;
        }
    }

    /// Gives a name the number that it has reached, the name that reached it the number that it
    /// had, and so on to the root.
    fn flip(&mut self, root: u32, mut name: u32, mut place: Option<u32>) {
        for _ in 0..self.names.len() {
            let now = self.name(name);
            if let Some(served) = self.names.get_mut(name as usize) {
                served.place = place;
            }
            if let Some(place) = place {
                if let Some(number) = self.numbers.get_mut(place as usize) {
                    number.owner = Some(name);
                }
            }
            if name == root {
                return;
            }
            place = now.place;
            name = now.parent;
        }
    }

    /// Lets the other trees reach the numbers that were freed.
    fn free(&mut self, graph: &Graph) -> Result<(), AllocError> {
        for _ in 0..self.freed.len() {
            let Some(place) = self.freed.pop() else {
                return Ok(());
            };
            let z = self.z(place);
            for wish in graph.wishes_of(place) {
                let end = self.end(wish.name);
                if end == 0 {
                    continue;
                }
                let level = end.saturating_add(z).saturating_sub(wish.weight);
                if level <= self.now {
                    self.reach_now(graph, wish.name, place)?;
                } else {
                    self.wait(wish.name, level)?;
                }
            }
        }
        Ok(())
    }

    /// Goes on from a name to a number that it reaches, if the one is still in a tree, and the
    /// other still in none.
    fn follow(&mut self, graph: &Graph, name: u32, place: u32) -> Result<(), AllocError> {
        let Some(root) = self.name(name).root else {
            return Ok(());
        };
        let number = self.number(place);
        if number.is_held {
            return Ok(());
        }
        match number.owner {
            None => self.serve(graph, name, Some(place)),
            Some(owner) => {
                self.enter(owner, root, name);
                self.read(graph, owner)
            }
        }
    }

    /// One step: the first number that was reached at the level now, or else the name that is to be
    /// read next. Tells whether there was one.
    pub fn step(&mut self, graph: &Graph) -> Result<bool, AllocError> {
        if let Some((name, place)) = self.ready.pop_front() {
            self.follow(graph, name, place)?;
            return Ok(true);
        }
        let Some((Reverse(level), name)) = self.queue.pop() else {
            return Ok(false);
        };
        let next = self.name(name);
        if next.root.is_some() && next.alarm == level {
            self.now = level;
            self.read(graph, name)?;
        }
        Ok(true)
    }
}

/// A name without a number and in no tree.
fn no_name(y: u64) -> GuessedName {
    GuessedName {
        y,
        place: None,
        root: None,
        parent: 0,
        next: None,
        alarm: u64::MAX,
    }
}

/// A number that nobody has.
fn no_number() -> GuessedNumber {
    GuessedNumber {
        owner: None,
        is_held: false,
    }
}
