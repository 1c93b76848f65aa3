use super::*;
use num_domain::NumDomain;
use std::alloc::Global;
use std::test::Fail;
use val_dom::Val;

/// The ends, the modulus and the residue, big-endian, and zeros.
#[test]
fn a_value_is_spelled(rt: HostRuntime) {
    let all = [
        0x80, 0, 0, 0, 0x7F, 0xFF, 0xFF, 0xFF, 0, 0, 0, 1, 0, 0, 0, 0, 0, 0, 0, 0, 0, 0, 0, 0,
    ];
    assert!(rt; Val::top().spell() == all);
    let five = [
        0xFF, 0xFF, 0xFF, 0xFB, 0xFF, 0xFF, 0xFF, 0xFB, 0, 0, 0, 0, 0xFF, 0xFF, 0xFF, 0xFB, 0, 0,
        0, 0, 0, 0, 0, 0,
    ];
    assert!(rt; Val::constant(-5).spell() == five);
}

/// One node, which leads to itself, of rank 1 and a fact that says nothing: version 1.
const SMALLEST: [u8; 85] = [
    0x56, 0x53, 0x42, 0x43, 1, 0, 0, 0, 0, 1, 1, 0, 0, 0, 0, 0, 0, 0, 0, 0x80, 0, 0, 0, 0x7F, 0xFF,
    0xFF, 0xFF, 0, 0, 0, 1, 0, 0, 0, 0, 0x80, 0, 0, 0, 0x7F, 0xFF, 0xFF, 0xFF, 0, 0, 0, 1, 0, 0, 0,
    0, 0x80, 0, 0, 0, 0x7F, 0xFF, 0xFF, 0xFF, 0, 0, 0, 1, 0, 0, 0, 0, 0xFF, 0xFF, 0xFF, 6, 1, 0, 0,
    0, 0, 0, 0, 0, 0, 0, 0, 0, 1, 0,
];

/// The first so many bytes of the smallest certificate, one of them changed.
fn changed(alloc: Global, count: usize, at: usize, value: u8) -> Result<Vec<u8>, Fail> {
    let mut bytes = Vec::from_slice(alloc, &SMALLEST)?;
    if let Some(byte) = bytes.get_mut(at) {
        *byte = value;
    }
    bytes.truncate(count);
    Ok(bytes)
}

/// The same certificate in version 2, with that tag and with or without its fact.
fn tagged(alloc: Global, tag: u8, is_full: bool) -> Result<Vec<u8>, Fail> {
    let mut bytes = changed(alloc, 19, 4, 2)?;
    bytes.push(tag)?;
    if is_full {
        bytes.extend_from_slice(&SMALLEST[19..71])?;
    }
    bytes.extend_from_slice(&SMALLEST[71..])?;
    Ok(bytes)
}

/// How bytes are refused.
fn refused(alloc: Global, bytes: &[u8]) -> Option<CertFault> {
    match read_cert(alloc, bytes) {
        Ok(_) => None,
        Err(fault) => Some(fault),
    }
}

/// The rule, at the offset.
fn at(offset: u64, rule: CertRule) -> Option<CertFault> {
    Some(CertFault::At { offset, rule })
}

/// The smallest certificate is read, and bytes near to it aren't.
#[test]
fn certificates_are_read(rt: HostRuntime) -> Result<(), Fail> {
    let alloc = rt.alloc();
    let cases = [
        (0, 4, 1, at(0, CertRule::Length)),
        (84, 4, 1, at(84, CertRule::Length)),
        (85, 3, 0x44, at(0, CertRule::Magic)),
        (85, 4, 3, at(4, CertRule::Version)),
        (85, 7, 1, at(6, CertRule::Range)),
        (85, 34, 1, at(19, CertRule::Value)),
        (85, 4, 1, None),
    ];
    for (count, place, value, fault) in cases {
        let bytes = changed(alloc, count, place, value)?;
        assert!(rt; refused(alloc, bytes.as_slice()) == fault);
    }
    let mut longer = changed(alloc, 85, 4, 1)?;
    longer.push(0)?;
    assert!(rt; refused(alloc, longer.as_slice()) == at(85, CertRule::Trailing));
    Ok(())
}

/// A start node can't be bare, and a tag is 0 or 1.
#[test]
fn tags_are_read(rt: HostRuntime) -> Result<(), Fail> {
    let alloc = rt.alloc();
    let cases = [
        (1, false, at(19, CertRule::Bare)),
        (2, true, at(19, CertRule::Range)),
        (0, true, None),
    ];
    for (tag, is_full, fault) in cases {
        let bytes = tagged(alloc, tag, is_full)?;
        assert!(rt; refused(alloc, bytes.as_slice()) == fault);
    }
    Ok(())
}

/// What was read of version 1 is written in version 2.
#[test]
fn a_certificate_is_written(rt: HostRuntime) -> Result<(), Fail> {
    let alloc = rt.alloc();
    let Ok(cert) = read_cert(alloc, &SMALLEST) else {
        return Err("a certificate".into());
    };
    assert_eq!(rt; cert.kept().len(), 1);
    let Ok(bytes) = write_cert(alloc, &cert) else {
        return Err("its bytes".into());
    };
    let wanted = tagged(alloc, 0, true)?;
    assert!(rt; bytes.as_slice() == wanted.as_slice());
    Ok(())
}
