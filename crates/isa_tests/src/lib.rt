#![tactic(auto)]

// Words whose instructions are known beforehand, and words that are reserved.
#[cfg(test)]
mod tests {
    use isa::*;

    fn r(number: u32) -> Register {
        Register::from_low_bits(number)
    }

    #[test]
    fn words_of_instructions(rt: HostRuntime) {
        let xor = RegisterOp::Binary(BinaryOp::Xor);
        let add = RegisterOp::Binary(BinaryOp::Add);
        let addi = ImmediateOp::Binary(BinaryOp::Add);
        let back = Offset26::from_low_bits(0x03FF_FFFF);
        let cases = [
            (
                0x9800_0000,
                Instruction::Register {
                    op: xor,
                    left: r(0),
                    right: r(0),
                    to: r(0),
                },
            ),
            (
                0x3444_FFE0,
                Instruction::Immediate {
                    op: addi,
                    from: r(2),
                    value: 0xFFE0,
                    to: r(4),
                },
            ),
            (
                0xB5F1_7000,
                Instruction::Register {
                    op: add,
                    left: r(15),
                    right: r(17),
                    to: r(14),
                },
            ),
            (
                0xC3C0_0000,
                Instruction::Jump {
                    op: JumpOp::B,
                    target: r(30),
                },
            ),
            (
                0xC3E0_0000,
                Instruction::Jump {
                    op: JumpOp::B,
                    target: r(31),
                },
            ),
            (0xAC00_0002, Instruction::Raise { op: RaiseOp::Break }),
            (0xAC00_0007, Instruction::Raise { op: RaiseOp::Scall }),
            (
                0xE3FF_FFFF,
                Instruction::JumpOffset {
                    op: JumpOp::B,
                    offset: back,
                },
            ),
        ];
        for (word, instruction) in cases {
            assert_eq!(rt; instruction.encode(), word);
            assert_eq!(rt; reencode(word).ok(), Some(word));
            assert!(rt; Instruction::decode(word) == Ok(instruction));
        }
    }

    #[test]
    fn reserved_words(rt: HostRuntime) {
        let words = [
            0xAC00_0003,
            0x9C00_0000,
            0xA800_0000,
            0xCC00_0000,
            0xD400_0000,
            0x9800_0001,
            0xC3C0_0001,
        ];
        for word in words {
            assert!(rt; Instruction::decode(word).is_err());
        }
        assert_eq!(rt; Reserved.number(), 8);
    }
}
