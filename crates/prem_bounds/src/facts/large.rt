// The first function whose bound on cycles is too large.
ghost use Rattle.std.specs.Prelude.{◌≡◌, ◌≤◌, length, map};
ghost use Rattle.prem_bounds.specs.Facts.Large.{is_marked_tree, first_large};

use prem_plant::FnId;
use prem_tree::resolve::Routine;

fn is_marked(f: &Routine) -> bool
    ensures { result ≡ is_marked_tree f.now }
{
    match f.text.mark {
        Some(_) => true,
        None => false,
    }
}

/// The first function, by its number, that is a marked one whose bound is too large, or `job` where that of a job is.
/// Of each marked function in the order of the text it is told whether its bound is too large.
pub fn first_large(fs: &[Routine], job: usize, is_job_large: bool, large: &[bool]) -> Option<FnId>
    requires { length fs.now ≤ 65536 }
    ensures { result ≡ first_large job is_job_large 0 large.now (map is_marked_tree fs.now) }
{
    let mut k = 0;
    for n in 0..fs.len() {
        if is_marked(&fs[n]) {
            if k < large.len() {
                if large[k] {
                    return Some(n as u16);
                }
                k += 1;
            }
        }
        if n == job && is_job_large {
            return Some(n as u16);
        }
    }
    None
}
