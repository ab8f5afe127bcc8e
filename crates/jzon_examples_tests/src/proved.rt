//! Tests of `cookbook::proved`.

use jzon_examples::cookbook::proved::turn_off;

#[cfg(test)]
mod tests {
    use super::*;
    use std::test::Fail;

    #[test]
    fn turns_off(rt: HostRuntime) -> std::result::Result<(), Fail> {
        let alloc = rt.alloc();
        let mut config = jzon::parse(alloc, r#"{"debug": true, "port": 80}"#)?;
        turn_off(alloc, &mut config)?;
        assert_eq!(rt;
            config.dump(alloc)?.as_str(),
            r#"{"debug":false,"port":80}"#
        );
        Ok(())
    }
}
