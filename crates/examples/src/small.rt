ghost use Rattle.examples.specs.SmallTypes.{SmallTypes};

/// The examples of ranges and names hold; see specs/SmallTypes.antt.
pub fn small_types()
    ensures { SmallTypes }
{}

#[cfg(test)]
mod tests {
    use form::{Name, NameFault, RangeFault, Refusal, ValueRange, letter};
    use std::test::Fail;

    #[test]
    fn ranges_to_before(rt: HostRuntime) -> Result<(), Fail> {
        let Ok(range) = ValueRange::try_from(0..0) else {
            return Err(Fail::new("0 to before 0 is refused"));
        };
        assert_eq!(rt; range.min_values(), 0);
        assert_eq!(rt; range.max_values(), 0);
        match ValueRange::try_from(5..5) {
            Ok(_) => Err(Fail::new("5 to before 5 is taken")),
            Err(fault) => {
                assert_eq!(rt; Refusal::from(fault).number(), 101);
                Ok(())
            },
        }
    }

    #[test]
    fn names_of_32_bytes(rt: HostRuntime) -> Result<(), Fail> {
        let bytes = [b'n'; 33];
        let Ok(name) = Name::new(&bytes[0..32]) else {
            return Err(Fail::new("32 bytes are refused"));
        };
        assert_eq!(rt; name.as_bytes().len(), 32);
        match Name::new(&bytes) {
            Ok(_) => Err(Fail::new("33 bytes are taken")),
            Err(fault) => {
                assert_eq!(rt; Refusal::from(fault).number(), 102);
                Ok(())
            },
        }
    }

    #[test]
    fn letters_are_scalar_values(rt: HostRuntime) {
        assert!(rt; letter(0xD7FF).is_ok());
        assert!(rt; letter(0xD800).is_err());
        assert!(rt; letter(0xDFFF).is_err());
        assert!(rt; letter(0xE000).is_ok());
        assert!(rt; letter(0x10FFFF).is_ok());
        assert!(rt; letter(0x110000).is_err());
    }
}
