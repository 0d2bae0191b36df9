//! A law of every legal history of an area's pools.

ghost use Rattle.dsa_area.specs.Lives.{LiveIsTaken};
ghost use Rattle.dsa_area.specs.declared.area.Area.{Area};
ghost use Rattle.size_classes.specs.Classes.{IsClass};

/// An object that is live, by its pool's history, and that no call has brought back since, is never handed back as none
/// of the area's, for any number of callers.
pub fn live_objects_are_taken()
    ensures { (a : Area) (class : _) → IsClass class → LiveIsTaken a class }
{}
