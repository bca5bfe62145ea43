//! Which nodes have been named.
ghost use Rattle.std.specs.Prelude.{◌≡◌, ℕ, ◌<◌, ◌≤◌, false, List, [], ◌∷◌};
ghost use Rattle.formulas.specs.Names.{Each, children};
ghost use Rattle.formulas.specs.Marks.{Marks, Claimed, marked, free};

use crate::node::Node;

/// A mark for each node that has been named.
// Kept: an array, since reading uses no heap; contracts take the caller's own list of names, so no ghost field has it.
#[derive(Clone, Copy)]
pub struct Names {
    pub marks: [bool; 1024],
}

impl Names {
    /// No node is named.
    pub fn none() -> Names
        ensures { Marks result.marks [] }
    {
        Names {
            marks: [false; 1024],
        }
    }

    /// Whether a node is not named yet; a number that no table has is not free.
    fn is_free(&self, number: u16) -> bool
        ensures { result ≡ free self.now.marks number }
    {
        !*self.marks.get(usize::from(number)).unwrap_or(&true)
    }

    /// Names a node, and says whether that is the first time; a number that no table has is refused.
    /// A refusal leaves the marks as they were.
    pub fn claim(&mut self, number: u16) -> bool
        ensures named { (ns : List ℕ) → number < 1024 → Marks self.old.marks ns → Claimed self.new.marks (number ∷ []) result ns }
        ensures beyond { 1024 ≤ number → result ≡ false }
        ensures marks { self.new.marks ≡ marked self.old.marks number }
        ensures told { result ≡ free self.old.marks number }
        ensures kept { result ≡ false → self.new ≡ self.old }
    {
        let number = usize::from(number);
        let Some(&named) = self.marks.get(number) else {
            return false;
        };
        // Kept: tried with `get_mut`, and the proof did not close: no element is known after a write through it.
        self.marks[number] = true;
        !named
    }

    /// Names two nodes, and says whether each is named for the first time.
    /// A refusal leaves the marks as they were.
    pub fn claim_both(&mut self, first: u16, second: u16) -> bool
        ensures named { (ns : List ℕ) → first < 1024 → second < 1024 → Marks self.old.marks ns → Claimed self.new.marks (first ∷ second ∷ []) result ns }
        ensures kept { result ≡ false → self.new ≡ self.old }
    {
        if first == second || !self.is_free(second) {
            return false;
        }
        self.claim(first) && self.claim(second)
    }

    /// Names the nodes that a node names, and says whether each is named for the first time.
    /// A refusal leaves the marks as they were.
    pub fn claim_children(&mut self, node: Node) -> bool
        ensures named { (ns : List ℕ) → Each (λ c. c < 1024) (children node) → Marks self.old.marks ns → Claimed self.new.marks (children node) result ns }
        ensures kept { result ≡ false → self.new ≡ self.old }
    {
        match node {
            Node::Not(a) => self.claim(a),
            Node::And(a, b) | Node::Or(a, b) | Node::Both(a, b) | Node::When(a, b) => {
                self.claim_both(a, b)
            }
            _ => true,
        }
    }
}
