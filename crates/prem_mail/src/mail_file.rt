// The lines of a mail file.
ghost use Rattle.std.specs.Prelude.{◌≡◌, ◌≤◌, IfOk, length, map};
ghost use Rattle.prem_mail.specs.Feeds.{AreFeeds};
ghost use Rattle.prem_mail.specs.MailFile.{feeds_of};
ghost use Rattle.prem_mail.specs.Views.{GivesMail, line_fault};

use crate::fail::{MailFail, MailLineFail};
use crate::feed::Feed;
use crate::reading::read_line;
use prem_line::first_line;
use prem_set::run::Names;
use std::alloc::Global;

/// The n-th line's fault as one of the file.
fn at_line(n: u32, fail: MailLineFail) -> MailFail
    ensures { result ≡ line_fault n fail }
{
    match fail {
        MailLineFail::Refused(which) => MailFail::Line { n, which },
        MailLineFail::OutOfMemory => MailFail::OutOfMemory,
    }
}

/// Reads a mail file of a set with these names: one feed for each line that isn't skipped.
///
/// `Line` tells the first line that is refused and why; `OutOfMemory` comes only for want of memory.
pub fn read_mail(alloc: Global, bytes: &[u8], names: &Names) -> Result<Vec<Feed>, MailFail>
    requires { length bytes.now ≤ 1048576 }
    ensures exact { GivesMail result (feeds_of bytes.now names.now) }
    ensures lawful { IfOk result (λ feeds. AreFeeds (length names.now.tasks) (map (λ d. d.1) names.now.devices) feeds.items) }
{
    let mut feeds = Vec::new(alloc);
    let mut rest = bytes;
    let mut n = 1u32;
    while !rest.is_empty() {
        let (line, behind) = first_line(rest);
        if let Err(fail) = read_line(names, &mut feeds, line) {
            return Err(at_line(n, fail));
        }
        rest = behind;
        n += 1;
    }
    Ok(feeds)
}
