//! What the test says of the view.
ghost use Rattle.tm_exclude.specs.Exclusions.{ViewIsTested};

/// Where the root is not excluded, the view has what stands at the paths that are not.
pub fn view_is_tested()
    ensures { ViewIsTested }
{}
