//! What a reader keeps of the texts that it has read, for the time that it reads them once more.
use crate::cut_hashes::{CutHashes, no_hashes};
use crate::parts::Parts;
use std::alloc::Global;
use std::collections::VecDeque;

// How many hashes are kept at most: 512 MiB of them.
const MOST_HASHES: usize = 67108864;

/// What is done with hashes where a text ends.
#[derive(Clone, Copy, Drop)]
enum Task {
    /// None is kept, and none is expected.
    Nothing,
    /// Those of the text that ends are kept.
    Keep,
    /// The next that are kept are expected of the next text.
    Repeat,
}

/// The hashes of the paths of some texts, in the order of the texts: of a text of which none are
/// kept an empty list. A reader answers the same whatever stands here.
#[derive(Drop)]
pub(crate) struct Past {
    task: Task,
    count: usize,
    texts: VecDeque<CutHashes>,
}

impl Past {
    /// Nothing is kept. Takes no memory.
    pub(crate) fn new(alloc: Global) -> Self {
        Past {
            task: Task::Nothing,
            count: 0,
            texts: VecDeque::new(alloc),
        }
    }

    /// From the text in progress on hashes are kept, and none that were.
    pub(crate) fn keep(&mut self) {
        self.task = Task::Keep;
        self.count = 0;
        self.texts.clear();
    }

    // Keeps the hashes of the text that ends. Where there is no memory to tell one text from the
    // next, none are kept any more, nor those that were.
    fn take(&mut self, parts: &Parts) {
        let hashes = parts.hashes(MOST_HASHES.saturating_sub(self.count));
        self.count = self.count.saturating_add(hashes.len());
        if self.texts.push_back(hashes).is_err() {
            self.task = Task::Nothing;
            self.texts.clear();
        }
    }

    /// What is expected of the text that comes after the one that ends.
    pub(crate) fn next_text(&mut self, parts: &Parts) -> CutHashes {
        match self.task {
            Task::Nothing => no_hashes(parts.alloc),
            Task::Keep => {
                self.take(parts);
                no_hashes(parts.alloc)
            }
            Task::Repeat => match self.texts.pop_front() {
                Some(hashes) => hashes,
                None => no_hashes(parts.alloc),
            },
        }
    }

    /// What is expected of the first text, where all come once more.
    pub(crate) fn first_text(&mut self, parts: &Parts) -> CutHashes {
        if matches!(self.task, Task::Keep) {
            self.take(parts);
            self.task = Task::Repeat;
            return self.next_text(parts);
        }
        self.task = Task::Nothing;
        self.texts.clear();
        no_hashes(parts.alloc)
    }
}
