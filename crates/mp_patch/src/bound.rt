// What is known of the depth of a document while operations change it.
ghost use Rattle.std.specs.Prelude.{◌≡◌, ◌+◌, ◌≤◌, ◌↔◌, ℕ, IsTrue, None};
ghost use Rattle.mp_tree.specs.Document.{Document, depth, depth_limit};
ghost use Rattle.mp_patch.specs.Private.Bounds.{Bounds};

use crate::measuring::depth_within;
use mp_tree::Node;

/// The number of tokens of a place and the depth of a value that is put there are together at most this.
const LEVELS: usize = mp_tree::DEPTH_LIMIT as usize;

/// So many parts are walked at least before a document is measured: to walk them takes next to no time.
const LEAST_WALKED: usize = 65_536;

// A bound on the depth of a document, so that a `move` need not walk what it moves if that can't be too deep. The
// document is measured for a `move` alone, and once as many parts were walked as it had when it was measured before: so
// to measure it again takes no longer than the walks did.
#[derive(Drop)]
pub(crate) struct DepthBound {
    // the depth is at most this; None if nothing is known
    most: Option<usize>,
    // the parts that were walked since the document was measured
    walked: usize,
    // the parts that it had then
    parts: usize,
}

impl DepthBound {
    pub(crate) fn unknown() -> DepthBound
        ensures { result.most ≡ None }
    {
        DepthBound {
            most: None,
            walked: 0,
            parts: 0,
        }
    }

    // Whether a value fits below so many tokens. If it does, the bound holds also with the value there.
    pub(crate) fn admit<T: Node>(&mut self, value: &T, tokens: usize) -> bool
        ensures fits { IsTrue result ↔ (tokens + depth (T.means value.now) ≤ depth_limit) }
        ensures kept { (d : Document) → Bounds self.old.most 0 d → Bounds self.new.most 0 d }
        ensures bounds { IsTrue result → Bounds self.new.most tokens (T.means value.now) }
    {
        let Some(allowed) = LEVELS.checked_sub(tokens) else {
            return false;
        };
        let Some(depth) = depth_within(value, allowed, &mut self.walked) else {
            return false;
        };
        self.raise(tokens + depth);
        true
    }

    // The same of a part that was taken out below `origin` tokens of a document within the bound, which left `rest`.
    pub(crate) fn admit_part<T: Node>(
        &mut self,
        part: &T,
        origin: usize,
        rest: &T,
        tokens: usize,
    ) -> bool
        requires part { Bounds self.old.most origin (T.means part.now) }
        requires rest { Bounds self.old.most 0 (T.means rest.now) }
        ensures fits { IsTrue result ↔ (tokens + depth (T.means part.now) ≤ depth_limit) }
        ensures kept { Bounds self.new.most 0 (T.means rest.now) }
        ensures bounds { IsTrue result → Bounds self.new.most tokens (T.means part.now) }
    {
        if self.admits_unseen(origin, tokens) {
            return true;
        }
        if self.walked >= self.parts.max(LEAST_WALKED) {
            self.measure(rest);
        }
        self.admit(part, tokens)
    }

    // Whether a part that was below `origin` tokens fits below these, whatever it is; then the bound holds with it there.
    fn admits_unseen(&mut self, origin: usize, tokens: usize) -> bool
        ensures fits { IsTrue result → (v : Document) → Bounds self.old.most origin v
            → tokens + depth v ≤ depth_limit }
        ensures kept { (d : Document) → Bounds self.old.most 0 d → Bounds self.new.most 0 d }
        ensures bounds { IsTrue result → (v : Document) → Bounds self.old.most origin v
            → Bounds self.new.most tokens v }
    {
        let (Some(most), Some(allowed)) = (self.most, LEVELS.checked_sub(tokens)) else {
            return false;
        };
        let depth = most.saturating_sub(origin);
        if depth > allowed {
            return false;
        }
        self.raise(tokens + depth);
        true
    }

    fn measure<T: Node>(&mut self, node: &T)
        ensures { Bounds self.new.most 0 (T.means node.now) }
    {
        self.walked = 0;
        self.most = depth_within(node, LEVELS, &mut self.walked);
        self.parts = self.walked;
        self.walked = 0;
    }

    fn raise(&mut self, reach: usize)
        ensures kept { (d : Document) → Bounds self.old.most 0 d → Bounds self.new.most 0 d }
        ensures raised { (tokens : ℕ) (v : Document) → tokens + depth v ≤ reach
            → Bounds self.new.most tokens v }
    {
        if let Some(most) = self.most
            && most < reach
        {
            self.most = Some(reach);
        }
    }
}
