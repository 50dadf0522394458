//! The site of a path.
ghost use Rattle.std.specs.Prelude.{◌≡◌, IfSome, IfNone};
ghost use Rattle.tm_memworld.specs.Sites.{path_at, IsFirst, IsNowhere};

use crate::site::Site;

/// The site of this path.
pub fn find(sites: &[Site], path: &[u8]) -> Option<usize>
    ensures first { IfSome result (λ i. IsFirst sites.now i) }
    ensures path { IfSome result (λ i. path_at sites.now i ≡ path.now) }
    ensures none { IfNone result (IsNowhere sites.now path.now) }
{
    for (i, site) in sites.iter().enumerate() {
        if site.path() == path {
            return Some(i);
        }
    }
    None
}
