//! A law of dangers.

ghost use Rattle.law_outside.specs.Outside.{IsSafeOutside, View};
ghost use Rattle.rbc_spec.specs.Line.{Line};
ghost use Rattle.rbc_watch.specs.Dangers.{Breaks};
ghost use Rattle.rbc_watch.specs.declared.danger.Danger.{Danger};

/// A view with a danger is not safe. So a monitor that names a danger is right.
pub fn a_danger_breaks_the_promise()
    ensures { (line : Line) (v : View) (danger : Danger) → Breaks line v danger → IsSafeOutside line v → ⊥ }
{}
