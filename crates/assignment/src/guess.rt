//! A guess at the whole solution, in flat lists. Nothing is claimed of it and nothing rests on it:
//! `Solver::begun` takes over what it sees to be right, and searches serve the names that are left.
//! So a guess only saves time.
//!
//! First each name grows a tree alone, for a few steps. Where few names want one number that serves
//! nearly all of them. Then the trees of those that are left grow all at once.
use crate::forest::Forest;
use crate::graph::Graph;
use candidates::Rows;
use std::alloc::{AllocError, Global};
use std::collections::BTreeMap;

/// How many steps the tree of a name may take alone.
const STEPS_ALONE: usize = 4;

/// Has each name grow a tree alone, and tells which are left.
fn serve_alone(alloc: Global, forest: &mut Forest, graph: &Graph) -> Result<Vec<u32>, AllocError> {
    let mut left = Vec::new(alloc);
    for root in 0..graph.size {
        forest.restart();
        forest.plant(graph, root)?;
        for _ in 0..STEPS_ALONE {
            if forest.trees == 0 || !forest.step(graph)? {
                break;
            }
        }
        if forest.trees > 0 {
            forest.fell(root)?;
            left.push(root)?;
        }
    }
    Ok(left)
}

/// Has trees grow until one more is out. Tells whether one may be left.
fn serve_next(forest: &mut Forest, graph: &Graph) -> Result<bool, AllocError> {
    let trees = forest.trees;
    for _ in 0..=graph.pairs.len() {
        if forest.trees < trees {
            break;
        }
        if !forest.step(graph)? {
            return Ok(false);
        }
    }
    Ok(forest.trees > 0)
}

/// Has the trees of these names grow all at once.
fn serve_together(forest: &mut Forest, graph: &Graph, roots: &[u32]) -> Result<(), AllocError> {
    forest.restart();
    for root in roots {
        forest.plant(graph, *root)?;
    }
    for _ in 0..graph.size {
        if !serve_next(forest, graph)? {
            break;
        }
    }
    Ok(())
}

/// The number that each name has.
fn given(alloc: Global, forest: &Forest, graph: &Graph) -> Result<Vec<Option<u32>>, AllocError> {
    let mut given = Vec::with_capacity(alloc, graph.size as usize)?;
    for name in 0..graph.size {
        given.push(match forest.place(name) {
            Some(place) => graph.numbers.get(place as usize).copied(),
            None => None,
        })?;
    }
    Ok(given)
}

/// The potentials of the numbers that are not 0.
fn raised(alloc: Global, forest: &Forest, graph: &Graph) -> Result<BTreeMap<u32, u64>, AllocError> {
    let mut raised = BTreeMap::new(alloc);
    let mut place = 0;
    for number in graph.numbers.as_slice() {
        let z = forest.z(place);
        if z > 0 {
            raised.insert(*number, z)?;
        }
        place = place.saturating_add(1);
    }
    Ok(raised)
}

/// What was guessed: the potentials of numbers, and which number each name is to have.
#[derive(Drop)]
pub struct Guessed {
    pub z: BTreeMap<u32, u64>,
    pub given: Vec<Option<u32>>,
}

impl Guessed {
    /// A guess at the solution of the rows.
    pub fn of(alloc: Global, rows: &Rows<'_, '_>) -> Result<Self, AllocError> {
        let graph = Graph::of(alloc, rows)?;
        let mut forest = Forest::new(alloc, &graph)?;
        let left = serve_alone(alloc, &mut forest, &graph)?;
        serve_together(&mut forest, &graph, left.as_slice())?;
        Ok(Guessed {
            z: raised(alloc, &forest, &graph)?,
            given: given(alloc, &forest, &graph)?,
        })
    }
}
