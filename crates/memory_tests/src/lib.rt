//! Tests of host memory and page owners at their bounds.
#![tactic(auto)]

ghost use Rattle.std.specs.Prelude.{ℕ, ◌+◌, ◌≤◌, length};

#[cfg(test)]
mod tests {
    use memory::Kind::{Direct, Listed};
    use memory::{Buffer, Kind, judge_pieces, judge_size};
    use owners::{Owner, Owners};
    use refusal::Refusal::{BadPlace, PageTaken, WrongSize};
    use refusal::Spot::{Call, Entry, Piece};

    // An address from which no byte is in memory.
    const FAR: u64 = 0xffff_ffff_ffff_ffff;

    // The first slot of the first set.
    const FIRST: Owner = Owner { set: 0, slot: 0 };

    fn buffer(kind: Kind, address: u64, length: u32) -> Buffer {
        Buffer {
            kind,
            address,
            length,
        }
    }

    // Writes an entry of a page list.
    fn enter(memory: &mut [u8], at: usize, entry: u64)
        requires { at + 8 ≤ length memory.old }
    {
        memory[at..at + 8].copy_from_slice(&entry.to_le_bytes());
    }

    #[test]
    fn the_last_byte_of_memory(rt: HostRuntime) {
        let mut memory = [0u8; 8192];
        assert_eq!(rt; judge_pieces(&memory, &[buffer(Direct, 8191, 1)]), Ok(()));
        assert_eq!(rt;
            judge_pieces(&memory, &[buffer(Direct, 4096, 4096)]),
            Ok(())
        );
        assert_eq!(rt;
            judge_pieces(&memory, &[buffer(Direct, 0, 1), buffer(Direct, 8191, 2)]),
            Err(BadPlace(Piece(1)))
        );
        assert_eq!(rt;
            judge_pieces(&memory, &[buffer(Direct, 8192, 1)]),
            Err(BadPlace(Piece(0)))
        );
        buffer(Direct, 8190, 2).write(&mut memory, 0, &[7, 9]);
        assert_eq!(rt; memory[8190], 7);
        assert_eq!(rt; memory[8191], 9);
        buffer(Direct, 8191, 2).write(&mut memory, 0, &[5, 6]);
        assert_eq!(rt; memory[8191], 5);
        assert_eq!(rt; memory[0], 0);
    }

    #[test]
    fn addresses_near_the_end_of_numbers(rt: HostRuntime) {
        let mut memory = [3u8; 4096];
        assert_eq!(rt;
            judge_pieces(&memory, &[buffer(Direct, FAR, 0), buffer(Listed, FAR, 0)]),
            Ok(())
        );
        assert_eq!(rt;
            judge_pieces(&memory, &[buffer(Direct, FAR, 4096)]),
            Err(BadPlace(Piece(0)))
        );
        assert_eq!(rt;
            judge_pieces(&memory, &[buffer(Listed, FAR - 7, 1)]),
            Err(BadPlace(Piece(0)))
        );
        buffer(Direct, FAR, 4096).write(&mut memory, 4294967295, &[1, 2]);
        buffer(Listed, FAR, 1).write(&mut memory, 4294967295, &[1, 2]);
        assert_eq!(rt; memory[0], 3);
        let mut bytes = [8u8; 2];
        buffer(Listed, FAR - 7, 9).read(&memory, 4, &mut bytes);
        assert_eq!(rt; bytes, [0, 0]);
    }

    #[test]
    fn from_one_page_of_a_list_to_the_next(rt: HostRuntime) {
        let mut memory = [0u8; 16384];
        enter(&mut memory, 0, 5000);
        enter(&mut memory, 8, 12288);
        let buffer = buffer(Listed, 0, 4000);
        assert_eq!(rt; buffer.walk(&memory, 3192), (3, 0));
        buffer.write(&mut memory, 3190, &[1, 2, 3, 4]);
        assert_eq!(rt; memory[8190], 1);
        assert_eq!(rt; memory[8191], 2);
        assert_eq!(rt; memory[12288], 3);
        assert_eq!(rt; memory[12289], 4);
        let mut bytes = [0u8; 4];
        buffer.read(&memory, 3190, &mut bytes);
        assert_eq!(rt; bytes[0], 1);
        assert_eq!(rt; bytes[3], 4);
    }

    #[test]
    fn a_list_at_the_end_of_its_page(rt: HostRuntime) {
        let mut memory = [0u8; 16384];
        enter(&mut memory, 4080, 4096);
        enter(&mut memory, 4088, 8192);
        for (address, length, expected) in [
            (4080, 8192, Ok(())),
            (4080, 8193, Err(BadPlace(Piece(0)))),
            (4088, 8192, Err(BadPlace(Piece(0)))),
            (4088, 4096, Ok(())),
            (4084, 1, Err(BadPlace(Piece(0)))),
            (16384, 1, Err(BadPlace(Piece(0)))),
        ] {
            assert_eq!(rt;
                judge_pieces(&memory, &[buffer(Listed, address, length)]),
                expected,
                "at {address}, {length}"
            );
        }
    }

    #[test]
    fn entries_that_stray(rt: HostRuntime) {
        let mut memory = [0u8; 16384];
        enter(&mut memory, 0, 4096);
        enter(&mut memory, 8, 8193);
        assert_eq!(rt;
            judge_pieces(&memory, &[buffer(Direct, 0, 0), buffer(Listed, 0, 4097)]),
            Err(BadPlace(Entry(1, 1)))
        );
        enter(&mut memory, 8, 16384);
        assert_eq!(rt;
            judge_pieces(&memory, &[buffer(Listed, 0, 4097)]),
            Err(BadPlace(Entry(0, 1)))
        );
        enter(&mut memory, 8, 0xffff_ffff_ffff_f000);
        assert_eq!(rt;
            judge_pieces(&memory, &[buffer(Listed, 0, 4097)]),
            Err(BadPlace(Entry(0, 1)))
        );
        assert_eq!(rt; judge_pieces(&memory, &[buffer(Listed, 0, 4096)]), Ok(()));
        enter(&mut memory, 0, 16384);
        assert_eq!(rt;
            judge_pieces(&memory, &[buffer(Listed, 0, 4097)]),
            Err(BadPlace(Entry(0, 0)))
        );
    }

    #[test]
    fn a_list_altered_by_others(rt: HostRuntime) {
        let mut memory = [0u8; 8192];
        enter(&mut memory, 0, 0xffff_ffff_ffff_f001);
        buffer(Listed, 0, 100).write(&mut memory, 1, &[9, 9, 9]);
        assert_eq!(rt; memory[0], 1);
        assert_eq!(rt; memory[1], 240);
        assert_eq!(rt; memory[8], 0);
        assert_eq!(rt; memory[4096], 0);
        let mut bytes = [9u8; 3];
        buffer(Listed, 0, 100).read(&memory, 1, &mut bytes);
        assert_eq!(rt; bytes[2], 0);
        enter(&mut memory, 4088, 4095);
        buffer(Listed, 4088, 4096).write(&mut memory, 0, &[6, 7]);
        assert_eq!(rt; memory[4095], 6);
        assert_eq!(rt; memory[0], 1);
        assert_eq!(rt; memory[4096], 0);
    }

    #[test]
    fn the_longest_piece(rt: HostRuntime) {
        let mut memory = [0u8; 1060864];
        for k in 0..257 {
            enter(&mut memory, 2040 + 8 * k, (k as u64 + 1) * 4096);
        }
        enter(&mut memory, 2040, 8191);
        let longest = buffer(Listed, 2040, 1048575);
        assert_eq!(rt; judge_pieces(&memory, &[longest]), Ok(()));
        assert_eq!(rt;
            judge_pieces(&memory, &[buffer(Listed, 2040, 1048576)]),
            Err(BadPlace(Piece(0)))
        );
        assert_eq!(rt; longest.walk(&memory, 1048574), (257, 4093));
        assert_eq!(rt; longest.walk(&memory, 0), (1, 4095));
        let owner = Owner { set: 3, slot: 7 };
        let mut owners = Owners::new();
        assert_eq!(rt; owners.claim(&memory, &[longest], owner), Ok(()));
        assert!(rt; owners.table[0].is_some());
        assert!(rt; owners.table[257].is_some());
        assert!(rt; owners.table[258].is_none());
        owners.release(longest, owner);
        assert!(rt; owners.table[0].is_none());
        assert!(rt; owners.table[257].is_none());
        enter(&mut memory, 2048, 12287);
        assert_eq!(rt;
            judge_pieces(&memory, &[buffer(Listed, 2048, 1044480)]),
            Ok(())
        );
        assert_eq!(rt;
            judge_pieces(&memory, &[buffer(Listed, 2048, 1044482)]),
            Err(BadPlace(Piece(0)))
        );
    }

    #[test]
    fn a_list_page_that_is_a_data_page(rt: HostRuntime) {
        let mut memory = [0u8; 16384];
        enter(&mut memory, 0, 4096);
        enter(&mut memory, 8, 0);
        let mut owners = Owners::new();
        assert_eq!(rt;
            owners.claim(&memory, &[buffer(Listed, 0, 8192)], FIRST),
            Err(PageTaken(Entry(0, 1)))
        );
        assert!(rt; owners.table[0].is_none());
        assert!(rt; owners.table[1].is_none());
        assert_eq!(rt;
            owners.claim(
                &memory,
                &[buffer(Listed, 0, 4096), buffer(Direct, 8, 8)],
                FIRST
            ),
            Err(PageTaken(Piece(1)))
        );
        assert!(rt; owners.table[0].is_none());
        assert_eq!(rt;
            owners.claim(
                &memory,
                &[buffer(Direct, 8, 8), buffer(Listed, 0, 4096)],
                FIRST
            ),
            Err(PageTaken(Piece(1)))
        );
    }

    #[test]
    fn two_lists_in_one_page(rt: HostRuntime) {
        let mut memory = [0u8; 16384];
        enter(&mut memory, 0, 4096);
        enter(&mut memory, 8, 8192);
        let mut owners = Owners::new();
        assert_eq!(rt;
            owners.claim(
                &memory,
                &[buffer(Listed, 0, 16), buffer(Listed, 8, 16)],
                FIRST
            ),
            Err(PageTaken(Piece(1)))
        );
        assert!(rt; owners.table[0].is_none());
        assert!(rt; owners.table[1].is_none());
        assert_eq!(rt;
            owners.claim(&memory, &[buffer(Listed, 0, 16)], FIRST),
            Ok(())
        );
        assert_eq!(rt;
            owners.claim(&memory, &[buffer(Listed, 8, 16)], Owner { set: 1, slot: 0 }),
            Err(PageTaken(Piece(0)))
        );
    }

    #[test]
    fn of_two_namings_the_later(rt: HostRuntime) {
        let mut memory = [0u8; 16384];
        enter(&mut memory, 0, 4096);
        enter(&mut memory, 8, 4096);
        let mut owners = Owners::new();
        assert_eq!(rt;
            owners.claim(&memory, &[buffer(Listed, 0, 4097)], FIRST),
            Err(PageTaken(Entry(0, 1)))
        );
        let two_pages = buffer(Direct, 12287, 2);
        assert_eq!(rt;
            owners.claim(&memory, &[two_pages, buffer(Direct, 8192, 1)], FIRST),
            Err(PageTaken(Piece(1)))
        );
        let owner = Owner { set: 0, slot: 7 };
        assert_eq!(rt; owners.claim(&memory, &[two_pages], owner), Ok(()));
        let pieces = [
            buffer(Direct, 0, 1),
            buffer(Direct, 4096, 4096),
            buffer(Direct, 8191, 2),
        ];
        assert_eq!(rt;
            owners.claim(&memory, &pieces, FIRST),
            Err(PageTaken(Piece(2)))
        );
        assert!(rt; owners.table[0].is_none());
        assert!(rt; owners.table[1].is_none());
        assert!(rt; owners.table[2].is_some());
        assert!(rt; owners.table[3].is_some());
        owners.release(two_pages, owner);
        assert!(rt; owners.table[2].is_none());
        assert!(rt; owners.table[3].is_none());
    }

    #[test]
    fn bytes_are_put(rt: HostRuntime) {
        let mut memory = [0u8; 8192];
        let mut owners = Owners::new();
        assert_eq!(rt; judge_size(&memory, 2), Ok(()));
        assert_eq!(rt; judge_size(&memory, 4503599627370498), Err(WrongSize));
        assert_eq!(rt; owners.put(&mut memory, 3, 0, &[1]), Err(WrongSize));
        assert_eq!(rt; owners.put(&mut memory, 2, FAR, &[]), Ok(()));
        assert_eq!(rt; owners.put(&mut memory, 2, FAR, &[1]), Err(BadPlace(Call)));
        assert_eq!(rt;
            owners.put(&mut memory, 2, 8191, &[1, 2]),
            Err(BadPlace(Call))
        );
        assert_eq!(rt; owners.put(&mut memory, 2, 4095, &[4, 5]), Ok(()));
        assert_eq!(rt; memory[4095], 4);
        assert_eq!(rt; memory[4096], 5);
        assert_eq!(rt;
            owners.claim(&memory, &[buffer(Direct, 4096, 1)], FIRST),
            Ok(())
        );
        assert_eq!(rt;
            owners.put(&mut memory, 2, 4095, &[6, 7]),
            Err(PageTaken(Call))
        );
        assert_eq!(rt; memory[4095], 4);
        assert_eq!(rt; owners.put(&mut memory, 2, 4095, &[6]), Ok(()));
        assert_eq!(rt; memory[4095], 6);
    }
}
