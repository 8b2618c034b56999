// A set of modules that no number up to 9, 17 or 18 refuses.
ghost use Rattle.std.specs.Prelude.{◌≡◌, true, ◌≤◌, ◌<◌, length};
ghost use Rattle.header.specs.Header.{code_of};
ghost use Rattle.entries.specs.Entries.{entries_sound};
ghost use Rattle.module_set.specs.Members.{members_of, member_at};
ghost use Rattle.verifier.specs.Tables.{Linkable};

/// The set, lent: every record is read, every import found, every results list as long as the entries.
#[derive(Clone, Copy)]
pub struct LinkedSet<'a> {
    pub records: &'a [u8],
    pub lists: &'a [u8],
    pub directory: &'a [u32],
    ghost linkable: { Linkable (members_of records.now lists.now directory.now) },
}

impl<'a> LinkedSet<'a> {
    ghost use Rattle.verifier.specs.Lent.{members};

    // How many modules there are.
    pub fn count(self) -> usize
        ensures { result ≡ length (members self.entry) }
    {
        module_set::count(self.directory)
    }

    pub fn record(self, k: usize) -> &'a [u8]
        requires { k < length (members self) }
        ensures { result.now ≡ (member_at (members self.entry) k).bytes }
    {
        module_set::record_of(self.records, self.directory, k)
    }

    pub fn code(self, k: usize) -> &'a [u8]
        requires { k < length (members self) }
        ensures value { result.now ≡ code_of (member_at (members self.entry) k).bytes }
        ensures sound { entries_sound result.now ≡ true }
        ensures small { length result.now ≤ 4096 }
    {
        header::code_of(self.record(k))
    }

    pub fn results(self, k: usize) -> &'a [u8]
        requires { k < length (members self) }
        ensures { result.now ≡ (member_at (members self.entry) k).results }
    {
        module_set::list_of(self.lists, self.directory, k)
    }
}
