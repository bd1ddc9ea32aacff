// Requests for a first site.
use crate::output::Output;
use crate::text::MOST_WORDS;
use crate::times::Call;
use crate::{lent, times};
use atom_simplifier::FoundSite;
use expr::refusal::Refusal;

// No call needs as many bytes for a path.
const MOST_PATH: usize = 100;

// So many calls that are lent so many words, and bytes for a path.
pub(crate) fn answer(
    words: &[u64],
    width: u32,
    size: u32,
    bytes: u32,
    count: u32,
    out: &mut Output<'_, impl Print>,
) -> Option<()> {
    let mut room = [0u64; MOST_WORDS];
    let mut way = [0u8; MOST_PATH];
    let site = Site {
        words,
        width,
        path: lent::lend(&mut way, bytes)?,
        places: lent::lend(&mut room, size)?,
    };
    site.put(count, out);
    Some(())
}

// `path` and `places` have their marks.
#[derive(Drop)]
struct Site<'a, 'b> {
    words: &'a [u64],
    width: u32,
    path: &'b mut [u8],
    places: &'b mut [u64],
}

impl Call for Site<'_, '_> {
    type Answer = Result<Option<FoundSite>, Refusal>;

    fn call(&mut self) -> Result<Option<FoundSite>, Refusal> {
        atom_simplifier::find_first_certifiable_atom_rewrite(
            self.words,
            self.width,
            self.path,
            self.places,
        )
    }
}

impl Site<'_, '_> {
    // What the last of so many calls gives and leaves.
    fn put(mut self, count: u32, out: &mut Output<'_, impl Print>) {
        let found = times::last_of(count, &mut self);
        let Site { path, places, .. } = self;
        match found {
            Ok(Some(site)) => put_found(site, path, places, out),
            Ok(None) => {
                out.put(b"none");
                out.put_untouched(path);
                out.put_kept(places, 0);
            }
            Err(r) => {
                out.put_refused(r, path);
                out.put_kept(places, 0);
            }
        }
    }
}

// The path and the words, and whether the places behind each hold their marks.
fn put_found(site: FoundSite, path: &[u8], places: &[u64], out: &mut Output<'_, impl Print>) {
    let steps = site.path.min(path.len());
    let taken = lent::words_of(site.nodes, places);
    write!(out, "{:x} {:x}", site.path, site.nodes);
    out.put_list(&path[..steps]);
    out.put_list(&places[..taken]);
    out.put(b" /");
    out.put_kept(path, steps);
    out.put_kept(places, taken);
}
