// The number 9: the results lists.
ghost use Rattle.std.specs.Prelude.{◌≡◌, ◌≤◌, length};
ghost use Rattle.module_set.specs.Members.{members_of};
ghost use Rattle.verifier.specs.Check.{results_sound, lists_sound};

#[tactic(auto, unfolding(crate::specs::Check::results_sound))]
pub fn results_sound(code: &[u8], results: &[u8]) -> bool
    ensures { result ≡ results_sound code.now results.now }
{
    results.len() == entries::entry_count(code) as usize
        && words::byte_at(results, 0) == 0
        && results.iter().all(|n| *n <= 2)
}

// The same of every module of a set.
// Kept: no `all`, as what `record_of` promises is for every list, and a closure's facts do not choose one.
pub fn lists_sound(records: &[u8], lists: &[u8], directory: &[u32]) -> bool
    requires { length directory.now ≤ 67 }
    ensures { result
        ≡ lists_sound (members_of records.now lists.now directory.now) }
{
    for k in 0..module_set::count(directory) {
        let code = header::code_of(module_set::record_of(records, directory, k));
        if !results_sound(code, module_set::list_of(lists, directory, k)) {
            return false;
        }
    }
    true
}
