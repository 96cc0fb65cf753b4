//! One link over the moments of a run: what is held at one end is what the other end sent at an earlier moment.
ghost use Rattle.std.specs.Prelude.{◌≡◌, ◌≤◌, ℕ, length, drop};
ghost use Rattle.law_machine.specs.Links.{Link, IsLink, back_on, replay};

/// What is held at one end, with what is on its way, is what the other end sends.
pub fn on_its_way<Set, Message>()
    ensures { (apply : Set → Message → Set) (link : Link Set Message) → IsLink apply link → (moment : ℕ)
        → replay apply (link.held moment) (drop (link.taken moment) (link.put moment)) ≡ link.sent moment }
{}

/// What is held at one end is what the other end sent at the moment to look back to, which does not lie before one at which nothing was on its way.
pub fn sent_then<Set, Message>()
    ensures held { (apply : Set → Message → Set) (link : Link Set Message) → IsLink apply link → (moment : ℕ)
        → link.held moment ≡ link.sent (back_on link moment) }
    ensures since { (apply : Set → Message → Set) (link : Link Set Message) → IsLink apply link → (empty moment : ℕ)
        → link.taken empty ≡ length (link.put empty) → empty ≤ moment → empty ≤ back_on link moment }
{}
